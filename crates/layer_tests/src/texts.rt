// What is read and written as bytes and text: `headers` and `defects` test `pool_layout`, `traces` and `reports` `trace_text`,
// and `scripts` `dict_text`.
mod defects;
mod headers;
mod reports;
mod scripts;
mod traces;

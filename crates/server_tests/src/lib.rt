// Tests of the server of `arena_server`: of one arena, by `single_server`, on one thread and with a sender and an owner on two
// (`rows`), and by `serve_runs` with eight senders and a narrow queue (`crowds`).
#![tactic(auto)]

#[cfg(test)]
mod crowds;
#[cfg(test)]
mod rows;
#[cfg(test)]
mod values;

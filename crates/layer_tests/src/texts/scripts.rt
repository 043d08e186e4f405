// Scripts of a dictionary in and outside the grammar, and what is printed of them.
use crate::values::same;
use dict_text::{
    PlainReply, Script, ScriptCall, read_script, write_pair_line, write_reply, write_size,
    write_value,
};
use std::alloc::Global;
use std::process::Abort;
use std::test::Fail;
use trace_text::{CrashSide, TextFault, write_crash_line};

// The refused line, 0 of a script, and the greatest number where there was no memory.
fn refused_line(alloc: Global, text: &[u8]) -> u64 {
    match read_script(alloc, text) {
        Ok(_) => 0,
        Err(TextFault::BadLine { line }) => line,
        Err(TextFault::Memory(_)) => u64::MAX,
    }
}
// Texts, and the first line of each outside the grammar: 0 of a script.
const LINES: [(&str, u64); 36] = [
    ("", 1),
    ("# a", 2),
    ("\n\n# a\n", 4),
    ("dict 16", 0),
    ("dict 1024\n", 0),
    ("dict 15\n", 1),
    ("dict 1025\n", 1),
    ("dict 016\n", 1),
    ("dict 16 \n", 1),
    ("dict  16\n", 1),
    ("dict\n", 1),
    ("pool 1 16\n", 1),
    ("dict 16\ndict 16\n", 2),
    ("# a\n\ndict 16\n\n# b\nput 7 1 2\n\nget 7\ndel 9", 0),
    ("# a\n\ndict 16\n\n# b\nput 7 1 2\n\nget\ndel 9", 8),
    ("dict 16\nput 7\n", 0),
    ("dict 16\nput\n", 2),
    ("dict 16\nput \n", 2),
    ("dict 16\nput 07\n", 2),
    ("dict 16\nput 7 \n", 2),
    ("dict 16\nput 7  1\n", 2),
    ("dict 16\nput 7 1 \n", 2),
    ("dict 16\nput 7 01\n", 2),
    ("dict 16\nput 7 1,2\n", 2),
    ("dict 16\nput 7x\n", 2),
    ("dict 16\nput 18446744073709551615\n", 0),
    ("dict 16\nput 18446744073709551616\n", 2),
    ("dict 16\nput 0 18446744073709551615\n", 0),
    ("dict 16\nput 0 18446744073709551616\n", 2),
    ("dict 16\nget 18446744073709551615\n", 0),
    ("dict 16\nget 18446744073709551616\n", 2),
    ("dict 16\nget 1 2\n", 2),
    ("dict 16\ndel 1\nget 1\ndel 1 2\n", 4),
    ("dict 16\ndel\n", 2),
    ("dict 16\nPut 1\n", 2),
    ("dict 16\nput 1\r\n", 2),
];

#[test]
fn first_line_outside_the_grammar_of_scripts(rt: HostRuntime) {
    for &(text, want) in &LINES {
        assert_eq!(rt;
            refused_line(rt.alloc(), text.as_bytes()),
            want,
            "at {text}"
        );
    }
}

#[test]
fn says_its_script(rt: HostRuntime) {
    let text = b"# a\ndict 16\nput 7 1 2\n\nget 7\nput 18446744073709551615\nput 0 3\ndel 9";
    let Ok(script) = read_script(rt.alloc(), text) else {
        panic!(rt; "no script");
    };
    has_five_calls(&rt, &script);
}

fn has_five_calls<R: Abort>(rt: &R, script: &Script) {
    let calls = [
        ScriptCall::Put {
            key: 7,
            from: 0,
            count: 2,
        },
        ScriptCall::Get { key: 7 },
        ScriptCall::Put {
            key: u64::MAX,
            from: 2,
            count: 0,
        },
        ScriptCall::Put {
            key: 0,
            from: 2,
            count: 1,
        },
        ScriptCall::Del { key: 9 },
    ];
    same(rt, &script.granules, &16);
    same(rt, &script.calls.as_slice(), &&calls[..]);
    same(rt, &script.values.as_slice(), &&[1, 2, 3][..]);
}

// A put of so many words behind the line of the size.
fn long_put(alloc: Global, words: u32) -> Result<Vec<u8>, Fail> {
    let mut text = Vec::new(alloc);
    write_long_put(&mut text, words)?;
    Ok(text)
}

fn write_long_put(text: &mut Vec<u8>, words: u32) -> Result<(), Fail> {
    text.extend_from_slice(b"dict 16\nput 7")?;
    for _ in 0..words {
        text.extend_from_slice(b" 5")?;
    }
    Ok(())
}

#[test]
fn most_words_of_a_value(rt: HostRuntime) -> Result<(), Fail> {
    let rows = [(508, 0), (509, 0), (510, 2)];
    for (words, want) in rows {
        let text = long_put(rt.alloc(), words)?;
        assert_eq!(rt; refused_line(rt.alloc(), &text), want, "of {words}");
    }
    Ok(())
}

#[test]
fn prints_a_dictionary(rt: HostRuntime) -> Result<(), Fail> {
    let mut out = Vec::new(rt.alloc());
    print_a_dictionary(&rt, &mut out)
}

fn print_a_dictionary<R: Abort>(rt: &R, out: &mut Vec<u8>) -> Result<(), Fail> {
    let replies = [
        PlainReply::Stored,
        PlainReply::Full,
        PlainReply::NoSpace,
        PlainReply::Absent,
        PlainReply::Removed,
    ];
    for reply in replies {
        write_reply(out, reply)?;
    }
    write_value(out, &[1, u64::MAX])?;
    write_value(out, &[])?;
    write_crash_line(out, 3, CrashSide::After)?;
    write_size(out, 2)?;
    write_pair_line(out, 0, &[])?;
    write_pair_line(out, u64::MAX, &[3, 0])?;
    let want =
        b"stored\nfull\nno space\nabsent\nremoved\nvalue 1 18446744073709551615\nvalue\ncall 3 after\nsize 2\n0\n18446744073709551615 3 0\n";
    same(rt, &out.as_slice(), &&want[..]);
    Ok(())
}

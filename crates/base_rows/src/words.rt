//! What words are read as.

use frame_grammar::{Framing, Job};
use relay_words::*;
use std::alloc::{AllocError, Global};
use std::fmt::Write;
use std::test::Fail;

/// The words of a row, which has a bar between two.
fn words_of(alloc: Global, row: &str) -> Result<Vec<String>, AllocError> {
    let mut words = Vec::new(alloc);
    for word in row.split('|') {
        words.push(String::from_str(alloc, word)?)?;
    }
    Ok(words)
}

fn read(alloc: Global, row: &str) -> Result<Result<Command, Usage>, AllocError> {
    Ok(read_words(words_of(alloc, row)?.as_slice()))
}

fn job(input: Framing, output: Framing) -> Job {
    Job {
        input,
        output,
        max: 65_536,
        seg: 4_096,
        pause: 65_536,
        resume: 32_768,
        limit: 1 << 40,
    }
}

#[test]
fn words_of_a_command(rt: HostRuntime) -> Result<(), Fail> {
    let alloc = rt.alloc();
    let usual = job(Framing::Line, Framing::Len4);
    let cases: [(&str, Job); 11] = [
        ("copy|line|len2", job(Framing::Line, Framing::Len2)),
        (
            "copy|len4|line|max=0",
            Job {
                max: 0,
                ..job(Framing::Len4, Framing::Line)
            },
        ),
        (
            "copy|len2|vlen|max=268435455",
            Job {
                max: 268_435_455,
                ..job(Framing::Len2, Framing::VLen)
            },
        ),
        (
            "copy|line|len4|seg=64|max=0",
            Job {
                max: 0,
                seg: 64,
                ..usual
            },
        ),
        (
            "copy|line|len4|seg=65536",
            Job {
                seg: 65_536,
                ..usual
            },
        ),
        (
            "copy|line|len4|pause=100",
            Job {
                pause: 100,
                resume: 100,
                ..usual
            },
        ),
        (
            "copy|line|len4|pause=40000",
            Job {
                pause: 40_000,
                ..usual
            },
        ),
        ("copy|line|len4|pause=0", Job { pause: 0, ..usual }),
        (
            "copy|line|len4|pause=0|resume=70000",
            Job {
                pause: 0,
                resume: 70_000,
                ..usual
            },
        ),
        (
            "copy|line|len4|resume=65536",
            Job {
                resume: 65_536,
                ..usual
            },
        ),
        (
            "copy|line|len4|resume=7|seg=65|pause=8|max=9",
            Job {
                max: 9,
                seg: 65,
                pause: 8,
                resume: 7,
                ..usual
            },
        ),
    ];
    for (words, job) in cases {
        assert!(rt; read(alloc, words)? == Ok(Command::Local(LocalCommand::Copy { job })));
    }
    let pump = read(alloc, "pump|line|len4|seg=64")?;
    let job = Job { seg: 64, ..usual };
    assert!(rt; pump == Ok(Command::Threaded(ThreadedCommand::Pump { job })));
    let drill = read(alloc, "drill|4294967295|0|line|len4|seg=64")?;
    let (seed, count) = (4_294_967_295, 0);
    let wanted = ThreadedCommand::Drill { seed, count, job };
    assert!(rt; drill == Ok(Command::Threaded(wanted)));
    Ok(())
}

/// At each place, the words, a row each, of which this place is told.
const REFUSED: [&str; 8] = [
    "\
Copy|line|len4
copy \n\
served|L|T|line|len4|2
",
    "\
drill|line|len4
drill|4294967296|1|line|len4
pump
copy
copy|Line
copy|max=1|len4
batch
batch|0|line|len4|a
batch|17|line|len4|a
batch|02|line|len4|a
batch|line|len4|a
serve
serve||T|line|len4|2
",
    "\
drill|1|1000001|line|len4
drill|1|00|line|len4
pump|line|copy
copy|len4
copy|len4|foo
batch|2
batch|2|max=9|line|len4|a
serve|L
serve|L||line|len4|2
",
    "\
drill|1|0
copy|len4|line|x
copy|len4|line|
copy|len4|line|max=01
copy|len4|line|max=
copy|len4|line|max=+1
copy|len4|line|max=268435456
copy|len4|line|max=18446744073709551617
copy|line|len4|seg=63
copy|line|len4|seg=65537
copy|line|len4|Seg=64
copy|line|len4|pause=16777217
copy|line|len4|resume=16777217|pause=0
copy|line|len4|resume=70000
copy|line|line|resume=9|pause=8
batch|2|line
batch|2|line|a
serve|L|T
serve|L|T|foo
serve|L|T|2|line|len4
",
    "\
pump|line|len4|max=1|max=1
copy|line|len4|pause=0|resume=0
copy|line|line|pause=8|resume=9
copy|line|len4|seg=64|seg=65
copy|line|len4|max=1|max=1
copy|line|len4|max=1|max=01
batch|2|line|len4
batch|2|line|len4|
batch|2|line|len4|max=|a
batch|2|line|len4|seg=63|a
batch|2|line|len4|a.out
batch|2|line|line|resume=70000|a
batch|2|line|line|resume=0|a
serve|L|T|line
serve|L|T|line|2|len4
",
    "\
drill|1|0|line|len4|x
copy|line|line|resume=9|pause=8|x
copy|line|len4|max=1|seg=64|max=1
batch|2|line|len4|max=9
batch|2|line|len4|max=9|max=9|a
batch|2|line|len4|a|a
batch|2|line|len4|a|.out
batch|2|line|line|resume=70000
batch|2|line|line|pause=8|resume=9|a
serve|L|T|line|len4
serve|L|T|line|len4|0
serve|L|T|line|len4|02
serve|L|T|line|len4|1000001
serve|L|T|line|len4|max=9|2
",
    "\
drill|1|0|line|len4|pause=8|resume=9
serve|L|T|line|len4|2|x
serve|L|T|line|len4|2|resume=70000
serve|L|T|line|len4|2|resume=9|pause=8
batch|2|line|len4|a|max=9|max=9
batch|2|line|line|resume=70000|a|a
",
    "\
batch|2|line|len4|a|b|max=9|b
",
];

#[test]
fn words_of_no_command_or_batch(rt: HostRuntime) -> Result<(), Fail> {
    assert!(rt; read_words(&[]) == Err(Usage { word: 0 }));
    for (word, rows) in REFUSED.iter().enumerate() {
        for row in rows.lines() {
            assert!(rt; read(rt.alloc(), row)? == Err(Usage { word }));
        }
    }
    Ok(())
}

#[test]
fn words_of_a_batch(rt: HostRuntime) -> Result<(), Fail> {
    let alloc = rt.alloc();
    let usual = job(Framing::Line, Framing::Len4);
    let cases: [(&str, usize, usize, Job); 7] = [
        ("batch|1|line|len4|a", 1, 4, usual),
        ("batch|16|line|len4|a|b", 16, 4, usual),
        (
            "batch|2|line|len4|max=9|a|max=9",
            2,
            5,
            Job { max: 9, ..usual },
        ),
        (
            "batch|2|line|len4|seg=64|max=9|max|a.out2",
            2,
            6,
            Job {
                max: 9,
                seg: 64,
                ..usual
            },
        ),
        ("batch|2|line|len4|a|max=x", 2, 4, usual),
        ("batch|2|line|len4|a|.Out|aa", 2, 4, usual),
        (
            "batch|2|line|len4|pause=0|resume=70000|batch",
            2,
            6,
            Job {
                pause: 0,
                resume: 70_000,
                ..usual
            },
        ),
    ];
    for (words, workers, names_from, job) in cases {
        let batch = ThreadedCommand::Batch {
            workers,
            job,
            names_from,
        };
        assert!(rt; read(alloc, words)? == Ok(Command::Threaded(batch)));
    }
    Ok(())
}

const FRONT: &str = "batch|2|line|len4";

/// What is read of a batch with one name, which is so many times a text.
fn batch_named(
    alloc: Global,
    text: &str,
    times: u32,
) -> Result<Result<Command, Usage>, AllocError> {
    let mut words = words_of(alloc, FRONT)?;
    let mut name = String::new(alloc);
    for _ in 0..times {
        name.push_str(text)?;
    }
    words.push(name)?;
    Ok(read_words(words.as_slice()))
}

/// What is read of a batch with so many names.
fn batch_of(alloc: Global, count: u32) -> Result<Result<Command, Usage>, AllocError> {
    let mut words = words_of(alloc, FRONT)?;
    for number in 0..count {
        words.push(format!(in alloc; "{number}")?)?;
    }
    Ok(read_words(words.as_slice()))
}

#[test]
fn a_name_has_up_to_255_bytes_and_a_batch_up_to_256_names(rt: HostRuntime) -> Result<(), Fail> {
    let alloc = rt.alloc();
    let batch = Command::Threaded(ThreadedCommand::Batch {
        workers: 2,
        job: job(Framing::Line, Framing::Len4),
        names_from: 4,
    });
    assert!(rt; batch_named(alloc, "a", 255)? == Ok(batch));
    assert!(rt; batch_named(alloc, "a", 256)? == Err(Usage { word: 4 }));
    assert!(rt; batch_named(alloc, "é", 127)? == Ok(batch));
    assert!(rt; batch_named(alloc, "é", 128)? == Err(Usage { word: 4 }));
    assert!(rt; batch_of(alloc, 256)? == Ok(batch));
    assert!(rt; batch_of(alloc, 257)? == Err(Usage { word: 260 }));
    Ok(())
}

#[test]
fn the_text_of_a_usage(rt: HostRuntime) -> Result<(), Fail> {
    let mut text = String::new(rt.alloc());
    write!(text, "{}", Usage { word: 3 })?;
    assert!(rt; text.as_str() == "usage: word 3");
    Ok(())
}

use crate::tests::same::assert_same;
use aql_options::{Options, WordFault, read_words};
use std::alloc::{AllocError, Global};

fn push_word(alloc: Global, all: &mut Vec<String>, word: &str) -> Result<(), AllocError> {
    let word = String::from_str(alloc, word)?;
    all.push(word)?;
    Ok(())
}

// The program's name and these words.
fn command_line(alloc: Global, words: &[&str]) -> Result<Vec<String>, AllocError> {
    let mut all = Vec::new(alloc);
    push_word(alloc, &mut all, "aql")?;
    for word in words {
        push_word(alloc, &mut all, word)?;
    }
    Ok(all)
}

// The options that words after the program's name ask for, or why they have no reading.
fn read(alloc: Global, words: &[&str]) -> Result<Result<Options, WordFault>, AllocError> {
    let all = command_line(alloc, words)?;
    Ok(read_words(alloc, all.as_slice()))
}

// What no word asks for.
const PLAIN: Options = Options {
    workers: 1,
    budget: 10_000_000,
    plan: false,
    sample: None,
    motion: false,
    graph: false,
};

const ROWS: &[(&[&str], Options)] = &[
    (&[], PLAIN),
    (
        &["--workers", "8"],
        Options {
            workers: 8,
            ..PLAIN
        },
    ),
    (
        &["--workers=8"],
        Options {
            workers: 8,
            ..PLAIN
        },
    ),
    (&["--budget", "1"], Options { budget: 1, ..PLAIN }),
    (
        &["--plan"],
        Options {
            plan: true,
            ..PLAIN
        },
    ),
    (
        &["--sample", "1"],
        Options {
            sample: Some(1),
            ..PLAIN
        },
    ),
    (
        &["--sample=1000000"],
        Options {
            sample: Some(1_000_000),
            ..PLAIN
        },
    ),
    (
        &["--workers", "64", "--budget", "50000000"],
        Options {
            workers: 64,
            budget: 50_000_000,
            ..PLAIN
        },
    ),
    (
        &["--sample", "7", "--plan", "--budget=2", "--workers=3"],
        Options {
            workers: 3,
            budget: 2,
            plan: true,
            sample: Some(7),
            ..PLAIN
        },
    ),
    (
        &["--motion"],
        Options {
            motion: true,
            ..PLAIN
        },
    ),
    (
        &["--motion", "--sample=7", "--plan"],
        Options {
            plan: true,
            sample: Some(7),
            motion: true,
            ..PLAIN
        },
    ),
    (
        &["--graph"],
        Options {
            graph: true,
            ..PLAIN
        },
    ),
    (
        &["--graph", "--motion", "--budget=9"],
        Options {
            budget: 9,
            motion: true,
            graph: true,
            ..PLAIN
        },
    ),
];

#[test]
fn words_are_read(rt: HostRuntime) {
    for row in ROWS {
        assert_same(&rt, read(rt.alloc(), row.0), Ok(Ok(row.1)));
    }
}

const REFUSED: &[&[&str]] = &[
    &["--workers", "0"],
    &["--workers", "65"],
    &["--budget", "0"],
    &["--budget", "50000001"],
    &["--sample", "0"],
    &["--sample", "1000001"],
    &["--sample", "many"],
    &["--workers"],
    &["--plan=yes"],
    &["--help"],
    &["--version"],
    &["more"],
    &["--faster"],
    &["--plan", "--plan"],
    &["--motion=true"],
    &["--motion", "--motion"],
    &["--graph=true"],
    &["--graph", "--graph"],
];

#[test]
fn words_without_a_reading(rt: HostRuntime) {
    for words in REFUSED {
        assert_same(&rt, read(rt.alloc(), words), Ok(Err(WordFault::Usage)));
    }
}

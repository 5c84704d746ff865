//! Splits a file into words and reads each as a whole number: `bench/lex.sh` takes its time.
#![tactic(auto)]

ghost use Rattle.std.specs.Prelude.{◌≡◌, ◌≤◌, length};
ghost use Rattle.lex_speed.specs.Count.{totals_of};

use pf_lex::{Lines, NumFault, Token, whole};
use std::rt::{Env, Files};
use std::{env, fs, io};

/// The most bytes that a text may have.
const MOST_BYTES: usize = 268_435_456;

/// What the words of a text come to.
#[derive(Drop)]
struct Totals {
    words: u64,
    not_whole: u64,
    too_large: u64,
    /// The sum of the numbers, which wraps.
    sum: i64,
    /// The number of the line after the last.
    past: u32,
}

impl Totals {
    ghost use Rattle.lex_speed.specs.Count.{with_word};
    ghost use Rattle.pf_lex.specs.Token.{word_of};

    fn add(&mut self, token: Token<'_>)
        ensures { self.new ≡ with_word self.old (word_of token.entry) }
    {
        self.words = self.words.wrapping_add(1);
        match whole(token) {
            Ok(number) => self.sum = self.sum.wrapping_add(number),
            Err(NumFault::NotWhole) => self.not_whole = self.not_whole.wrapping_add(1),
            Err(NumFault::TooLarge) => self.too_large = self.too_large.wrapping_add(1),
        }
    }
}

fn totals_of(bytes: &[u8]) -> Totals
    requires { length bytes.now ≤ 268435456 }
    ensures { result ≡ totals_of bytes.now }
{
    let mut lines = Lines::new(bytes);
    let mut all = Totals {
        words: 0,
        not_whole: 0,
        too_large: 0,
        sum: 0,
        past: lines.past(),
    };
    while let Some(words) = lines.next_line() {
        for token in words {
            all.add(token);
        }
    }
    all
}

fn run<R: Files + Env + Print + Alloc>(rt: &R) -> io::Result<()> {
    for name in env::args(rt)?.skip(1) {
        let bytes = fs::read(rt, name.as_str())?;
        if bytes.len() > MOST_BYTES {
            println!(rt; "{name}: too long")?;
            continue;
        }
        let all = totals_of(&bytes);
        let Totals {
            words,
            not_whole,
            too_large,
            sum,
            past,
        } = all;
        println!(rt;
            "words {words} not-whole {not_whole} too-large {too_large} sum {sum} past {past}"
        )?;
    }
    Ok(())
}

fn main(rt: HostRuntime) -> io::Result<()> {
    run(&rt)
}

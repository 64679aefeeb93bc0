//! The simulator as a program: a model text on standard input, its report on standard output, and what is wrong in
//! words on standard error.
#![tactic(auto)]

mod perform;
mod remarks;
mod tail;
#[cfg(test)]
mod tests;
mod text_read;
#[cfg(test)]
mod yards;

ghost use Rattle.std.specs.Prelude.{◌≡◌, ◌≢◌};
ghost use Rattle.std.specs.IoError.{error_kind};
ghost use Rattle.std.specs.declared.io.ErrorKind.TheVariants.{InvalidData};

use crate::perform::perform;
use crate::remarks::{remark_no_memory, remark_no_utf8, remark_terminal};
use ooo_sim::Failure;
use std::io::IsTerminal;
use std::process::ExitCode;
use std::{env, io};

/// Runs the command that the words give, and ends with its status.
fn main(rt: HostRuntime) -> ExitCode {
    match words(&rt) {
        Ok(words) => {
            if rt.stdin().is_terminal() {
                remark_terminal(&rt, &words);
            }
            ExitCode::from(perform(&rt, rt.alloc(), &words, rt.stdin(), &mut rt.stdout()))
        }
        Err(error) => {
            match error.kind() {
                io::ErrorKind::InvalidData => remark_no_utf8(&rt),
                _ => remark_no_memory(&rt),
            }
            ExitCode::from(unread(&error))
        }
    }
}

/// The words after the program's name.
fn words(rt: &HostRuntime) -> io::Result<Vec<String>> {
    let mut words = Vec::new(rt.alloc());
    for word in env::args(rt)?.skip(1) {
        words.push(word)?;
    }
    Ok(words)
}

/// The number to end with where the words can't be had: one is no UTF-8, which refuses them, or memory ran out.
fn unread(error: &io::Error) -> u8
    ensures words { error_kind error.now ≡ InvalidData → result ≡ 2 }
    ensures memory { error_kind error.now ≢ InvalidData → result ≡ 6 }
{
    match error.kind() {
        io::ErrorKind::InvalidData => 2,
        _ => Failure::OutOfMemory.number(),
    }
}

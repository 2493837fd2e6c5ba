// What a program was asked by its arguments.
use std::env::{Env, FillError};

// To answer a list, which takes no argument, or --status, by which the status is written too; for its page, by --help alone; or what it does not take.
#[derive(Clone, Copy)]
pub enum Asked {
    List,
    ListAndStatus,
    Page,
    Other,
}

// Whether there is such an argument, be it text or not.
fn has(env: &impl Env, i: usize) -> bool {
    !matches!(env.arg(i, &mut []), Err(FillError::NotPresent))
}

fn asked_by(word: &[u8]) -> Asked {
    if word == b"--help".as_slice() {
        Asked::Page
    } else if word == b"--status".as_slice() {
        Asked::ListAndStatus
    } else {
        Asked::Other
    }
}

pub fn what_is_asked(env: &impl Env) -> Asked {
    if !has(env, 1) {
        return Asked::List;
    }
    if has(env, 2) {
        return Asked::Other;
    }
    // As many bytes as the longest word has: no longer argument fits.
    let mut text = [0u8; 8];
    match env.arg(1, &mut text) {
        Ok(n) => asked_by(&text[..n]),
        Err(_) => Asked::Other,
    }
}

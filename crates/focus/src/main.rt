// The single check as a program: claim.bin and proof.bin of its working folder, and one line, `accept` or `refuse 38 at 3`.
//
// A buffer holds 65,536 bytes, more than any good file has: of a longer file its start earns the same refusal, 11 or 31 at the first
// byte that follows. A file is whole once a read has met its end; one that cannot be opened, or of which a read fails, gets a line on
// standard error, and there is no verdict.
#![tactic(auto)]

ghost use Rattle.std.specs.Prelude.{IfOk};
ghost use Rattle.io.specs.Counts.{IsPrefixLen};

use std::io::Read;
use std::rt::Files;
use std::{fs, io};
use verdict::{Refusal, Verdict};

// Reads the file to its end, to the buffer's, or to the first read that fails, as one does that a signal interrupts: how many bytes came,
// and no count where a read failed. A read that brings less than was asked is no end: a pipe's bytes come in pieces.
fn read_file(file: &mut impl Read, buf: &mut [u8]) -> io::Result<usize>
    ensures { IfOk result (λ count. IsPrefixLen count buf.new) }
{
    let mut done = 0;
    while done < buf.len() {
        let more = file.read(&mut buf[done..])?;
        if more == 0 {
            break;
        }
        done += more;
    }
    Ok(done)
}

fn read_named(files: &impl Files, name: &str, buf: &mut [u8]) -> io::Result<usize>
    ensures { IfOk result (λ count. IsPrefixLen count buf.new) }
{
    let mut file = fs::open(files, name)?;
    read_file(&mut file, buf)
}

fn write_verdict(rt: &impl Print, verdict: Verdict) -> io::Result<()> {
    match verdict {
        Ok(()) => println!(rt; "accept"),
        Err(Refusal { number, place }) => println!(rt; "refuse {number} at {place}"),
    }
}

fn judge(rt: &(impl Print + Eprint), claim: &[u8], proof: &[u8]) -> io::Result<()> {
    match write_verdict(rt, single::judge_files(claim, proof)) {
        Ok(_) => Ok(()),
        Err(error) => eprintln!(rt; "standard output: {error}"),
    }
}

fn judge_with(rt: &(impl Files + Print + Eprint), claim: &[u8]) -> io::Result<()> {
    let mut proof = [0u8; 65536];
    match read_named(rt, "proof.bin", &mut proof) {
        Ok(n) => judge(rt, claim, &proof[..n]),
        Err(error) => eprintln!(rt; "proof.bin: {error}"),
    }
}

fn main(rt: HostRuntime) -> io::Result<()> {
    let mut claim = [0u8; 65536];
    match read_named(&rt, "claim.bin", &mut claim) {
        Ok(n) => judge_with(&rt, &claim[..n]),
        Err(error) => eprintln!(rt; "claim.bin: {error}"),
    }
}

// mix: lays inks on dots. A request stands in the arguments, or on each line of standard input.
#![tactic(auto)]

use mixing::answer_line;
use std::io::{BufRead, BufReader};
use std::{env, io};

const HELP: &str = "\
mix lays inks on dots, and prints one answer for each request.

usage: mix REQUEST      answer one request
       mix < REQUESTS   answer each line of standard input, a line for a line

requests, with every number from 0 to 255:
  ink over  R G B A on R G B A   the dot that the ink gives, laid over another
  ink erase R G B A on R G B A   what is left of a dot that the ink erases from
  ink fade  R G B A at OPACITY   the dot at an opacity

A dot is red, green, blue and alpha, the colours already multiplied by alpha.
A request that the rules refuse is answered 'refused NUMBER: REASON'.
";

// The arguments after the program's name, as one line; none where there are none.
fn request_of_arguments(rt: &HostRuntime) -> io::Result<Option<String>> {
    let mut request: Option<String> = None;
    for word in env::args(rt)?.skip(1) {
        let mut line = match request {
            Some(mut begun) => {
                begun.push(' ')?;
                begun
            }
            None => String::new(rt.alloc()),
        };
        line.push_str(word.as_str())?;
        request = Some(line);
    }
    Ok(request)
}

// Prints what a request comes to, on a line of its own.
fn answer(rt: &HostRuntime, request: &str) -> io::Result<()> {
    match answer_line(rt.alloc(), request)? {
        Ok(dot) => rt.println(dot),
        Err(fault) => rt.println(fault),
    }
}

fn main(rt: HostRuntime) -> io::Result<()> {
    match request_of_arguments(&rt)? {
        Some(request) if request.as_str() == "--help" => print!(rt; "{HELP}"),
        Some(request) => answer(&rt, &request),
        None => {
            for line in BufReader::new(rt.alloc(), rt.stdin())?.lines(rt.alloc()) {
                answer(&rt, &line?)?;
            }
            Ok(())
        }
    }
}

// The chart at the bench.
//
//     control_chart                    commands on standard input, one to a line, from the chart of zeros
//     control_chart FILE COMMAND ..    one command on the chart that FILE holds
//     control_chart --help             what it takes and answers
//     control_chart --version          its version
//
// `commands::answer_line` decides what a line means and answers. `outcomes::on_file` decides what a command on a file comes to.
// `specs/Input` says what the input's bytes do to the chart. No contract can say which bytes are read, nor that answers are written.
//
// The program always ends with the exit status 0. With `--status` as its first argument it writes the status of what it did to descriptor 3
// at its end: 0, 1 (hold the batch), 2 (refused) or 3 (error). The script `bin/control_chart` asks for this status and exits with it.
#![tactic(auto)]

mod arguments;
mod file;
mod help;
mod input;
mod lock;
mod read;
mod replace;
mod say;

ghost use Rattle.std.specs.Prelude.{◌≡◌};
ghost use Rattle.control_chart.specs.Status.{asks_for_help};

use arguments::argument_count;
use file::command_on_file;
use help::{explain, say_version};
use input::commands_from_input;
use outcomes::names::is_name;
use parsing::fields::same_bytes;
use say::{ERROR, error, file_first};
use std::rt::Env;

// The most bytes of FILE's name: `.lock` follows it in the lock's name, and a path has at most 4,095 bytes.
const NAME_MOST: usize = 4090;

// Room for a path.
const PATH_ROOM: usize = 4096;

// Where the script reads the exit status.
const STATUS_FD: i32 = 3;

fn main(rt: HostRuntime) {
    let count = argument_count(rt);
    if !asks_for_status(rt) {
        run(rt, 1, count);
        return;
    }
    tell_status(run(rt, 2, count));
}

fn asks_for_status(rt: HostRuntime) -> bool {
    let mut word = [0u8; 16];
    match rt.arg(1, &mut word) {
        Ok(n) => same_bytes(&word[..n], b"--status"),
        Err(_) => false,
    }
}

fn tell_status(status: u8) -> bool {
    io::write_all(STATUS_FD, &[b'0' + status.min(ERROR)])
}

// Does what the arguments from `first` on ask for. Answers the exit status. If standard output is closed, nothing is done: a file that is
// opened would take its place.
fn run(rt: HostRuntime, first: usize, count: usize) -> u8 {
    if !system::is_open(&rt.stdout()) {
        return error(
            rt,
            b"standard output",
            b"it is closed, and nothing was done",
        );
    }
    if count <= first {
        let end = commands_from_input(rt);
        return end.status;
    }
    let mut path = [0u8; PATH_ROOM];
    match rt.arg(first, &mut path) {
        Ok(n) => by_first(rt, &path[..n], first + 1, count),
        Err(_) => long_name(rt),
    }
}

fn long_name(rt: HostRuntime) -> u8 {
    error(
        rt,
        b"FILE",
        b"the name is too long; a name has at most 4090 bytes",
    )
}

// The first argument asks for help or for the version, or it is FILE. After FILE the command begins with the next argument.
fn by_first(rt: HostRuntime, word: &[u8], next: usize, count: usize) -> u8 {
    if asks_for_help(word) {
        return explain(rt);
    }
    if NAME_MOST < word.len() {
        return long_name(rt);
    }
    if word.is_empty() {
        return error(rt, b"FILE", b"the name is empty");
    }
    if next < count {
        return command_on_file(rt, word, next, count);
    }
    first_alone(rt, word)
}

// There is only one argument. It asks for the version, or it is FILE without a command.
fn first_alone(rt: HostRuntime, word: &[u8]) -> u8 {
    if same_bytes(word, b"--version") {
        return say_version(rt);
    }
    if is_name(word) {
        return file_first(rt, word);
    }
    error(
        rt,
        word,
        b"missing command; control_chart help lists the commands",
    )
}

fn asks_for_help(word: &[u8]) -> bool
    ensures { result ≡ asks_for_help word.now }
{
    same_bytes(word, b"--help") | same_bytes(word, b"-h") | same_bytes(word, b"help")
}

// `fieldlog`: carries out the lines of standard input on a store of its own, and prints. All that matters stands in the crates `logline` and `session`;
// here bytes are only read and written. A line is carried out as soon as its end has been read, however the input arrives.
#![tactic(auto)]

ghost use Rattle.std.specs.Prelude.{◌≡◌};
ghost use Rattle.session.specs.Stands.{state_of, text_of};
ghost use Rattle.session.specs.Whole.{FedBytes, FedSome, FedLog, start};

use console::Console;
use logline::sizes::LINE_LIMIT;
use session::feed::Session;
use session::sizes::{ANSWER_SIZE, PRINT_LIMIT, STORE_SIZE};
use std::io;

// Feeds the bytes of a chunk in turn, and prints what each completes.
fn feed_chunk(console: &mut Console, session: &mut Session<'_>, chunk: &[u8])
    ensures { FedBytes (state_of session.old) chunk.now (state_of session.new) }
{
    for byte in chunk {
        session.feed_byte(*byte);
        console.print(session.text());
    }
}

// Reads until the input ends, and feeds what comes. The number of reads is bounded, by more than any input needs, because a loop has to end.
fn feed_all(console: &mut Console, session: &mut Session<'_>)
    ensures { FedSome (state_of session.old) (state_of session.new) }
{
    let mut chunk = [0; 4096];
    for _ in 0..u64::MAX {
        let n = console.read(&mut chunk);
        if n == 0 {
            return;
        }
        feed_chunk(console, session, &chunk[..n]);
    }
}

// Carries out the input on a store that is all zero; what the last line prints is still to be printed. That no line is left out is read here, no
// contract says it.
fn run(console: &mut Console, session: &mut Session<'_>)
    requires { state_of session.old ≡ start session.old.lines.bytes.now }
    ensures { FedLog (start session.old.lines.bytes.now) (text_of session.new) }
{
    feed_all(console, session);
    session.feed_end();
}

fn main(rt: HostRuntime) -> io::Result<()> {
    let mut console = Console::new(rt.stdin(), rt.stdout());
    let mut line = [0u8; LINE_LIMIT];
    let mut store = [0u8; STORE_SIZE];
    let mut answer = [0u8; ANSWER_SIZE];
    let mut out = [0u8; PRINT_LIMIT];
    let mut session = Session::new(&mut line, &mut store, &mut answer, &mut out);
    run(&mut console, &mut session);
    console.print(session.text());
    console.finish()
}

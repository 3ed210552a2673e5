//! Answers stored inputs and holds each answer to the stored one, byte for byte.
#![tactic(auto)]

ghost use Rattle.std.specs.Prelude.{◌≡◌, IfOk};
ghost use Rattle.frames.specs.Inputs.{input_answers};

use frames::respond::respond;
use frames::serve::serve;
use std::alloc::Global;
use std::io::BufReader;
use std::{fs, io};

// so many bytes are read at once: fewer than most inputs have
const CHUNK: usize = 1 << 10;

// An input and its answers, in the files of one stem.
#[derive(Clone, Copy)]
struct Group {
    name: &'static str,
    stem: &'static str,
}

const GROUPS: [Group; 9] = [
    Group {
        name: "a whole run",
        stem: "run",
    },
    Group {
        name: "limits of quotations and maturities",
        stem: "limits",
    },
    Group {
        name: "base 1",
        stem: "base-1",
    },
    Group {
        name: "base 2",
        stem: "base-2",
    },
    Group {
        name: "base 3",
        stem: "base-3",
    },
    Group {
        name: "base 4",
        stem: "base-4",
    },
    Group {
        name: "base 5",
        stem: "base-5",
    },
    Group {
        name: "base 6",
        stem: "base-6",
    },
    Group {
        name: "january",
        stem: "january",
    },
];

// The answers to an input as the program `yugrenda` gives them, from a reader to a writer.
fn served(heap: Global, input: &[u8]) -> io::Result<Vec<u8>>
    ensures { IfOk result (λ out. out.items ≡ input_answers input.now) }
{
    let mut out = Vec::new(heap);
    serve(
        heap,
        &mut BufReader::with_capacity(heap, CHUNK, input)?,
        &mut out,
    )?;
    Ok(out)
}

// Whether the input of a stem is answered as stored, in memory and as the program answers it.
fn agrees(rt: &HostRuntime, stem: &str) -> io::Result<bool> {
    let heap = rt.alloc();
    let input = fs::read(rt, &format!(in heap; "{stem}.frames")?)?;
    let expected = fs::read(rt, &format!(in heap; "{stem}.answers")?)?;
    let given = respond(heap, input.as_slice())?;
    let served = served(heap, input.as_slice())?;
    Ok(given.as_slice() == expected.as_slice() && served.as_slice() == expected.as_slice())
}

fn main(rt: HostRuntime) -> io::Result<()> {
    // Counted as it goes: a fold whose closure prints, and may fail, is no plainer.
    let mut agreed: u8 = 0;
    for Group { name, stem } in &GROUPS {
        if agrees(&rt, stem)? {
            agreed = agreed.saturating_add(1);
            println!(rt; "{name}: as stored")?;
        } else {
            println!(rt; "{name}: different")?;
        }
    }
    let groups = GROUPS.len();
    println!(rt; "{agreed} of {groups} as stored")
}

// Prints the auditor's cases, a line each: what is asked, then the answer's number, place, length, steps and bytes. The cases are asked through the
// entries that the workbench calls.
#![tactic(auto)]

use std::io;

// The end of a case's line: the answer's bytes, as many as its length says, each after a space.
fn say_bytes(rt: &impl Print, output: &[u8], length: u64) -> io::Result<()> {
    if length > 0 {
        print!(rt; ":")?;
    }
    for byte in output.iter().take(length as usize) {
        print!(rt; " {byte:02X}")?;
    }
    println!(rt; "")
}

// ---- inference

fn infer(
    rt: &impl Print,
    case: &str,
    formula: &[u8],
    environment: &[u8],
    capacity: u32,
    budget: u64,
) -> io::Result<()> {
    let mut output = [0u8; 64];
    let mut work = [0u32; 10240];
    let mut place = 0u64;
    let mut length = 0u64;
    let mut steps = 0u64;
    let number = host::typecheck_infer_in(
        formula,
        environment,
        1,
        capacity,
        budget,
        &mut output,
        &mut work,
        &mut place,
        &mut length,
        &mut steps,
    );
    print!(rt; "{case}: number {number}, place {place}, length {length}, steps {steps}")?;
    say_bytes(rt, &output, length)
}

fn infer_amply(rt: &impl Print, case: &str, formula: &[u8], environment: &[u8]) -> io::Result<()> {
    infer(rt, case, formula, environment, 2048, 1000000)
}

fn membership(rt: &impl Print) -> io::Result<()> {
    let formula = b"\x22\x06\x01\x00\x00\x04\x00";
    infer_amply(rt, "1 membership", formula, b"")?;
    infer(rt, "2 capacity 4", formula, b"", 4, 1000000)?;
    infer(rt, "2 capacity 3", formula, b"", 3, 1000000)?;
    infer(rt, "2 budget 11", formula, b"", 2048, 11)
}

fn problems(rt: &impl Print) -> io::Result<()> {
    infer_amply(
        rt,
        "3 one untyped name",
        b"\x22\x00\x01\x00\x00\x01\x00\x00",
        b"",
    )?;
    infer_amply(
        rt,
        "4 two untyped expressions",
        b"\x22\x00\x04\x08\x04\x08",
        b"",
    )?;
    infer_amply(
        rt,
        "5 a name in itself",
        b"\x22\x06\x01\x00\x00\x01\x00\x00",
        b"",
    )?;
    infer_amply(
        rt,
        "6 a pair whose left half is bound",
        b"\x22\x00\x07\x00\x01\x00\x00\x04\x04\x07\x00\x03\x03",
        b"",
    )
}

fn spelled(rt: &impl Print) -> io::Result<()> {
    let formula = b"\x26\x01\x12\x43\x42\x00\x00\x20";
    infer_amply(
        rt,
        "7 a spelled name that is held",
        formula,
        b"\x50\x00\x00\x41",
    )?;
    infer_amply(rt, "7 a spelled name that is not", formula, b"")
}

fn small(rt: &impl Print) -> io::Result<()> {
    infer_amply(rt, "8 a dangling index", b"\x02\x00\x00", b"")?;
    infer_amply(rt, "9 a literal", b"\x20", b"")?;
    infer_amply(rt, "9 nothing", b"", b"")?;
    infer_amply(rt, "10 an extension of nothing", b"\x05\x00\x00", b"")
}

fn nested(rt: &impl Print) -> io::Result<()> {
    let mut inside = [0x25u8; 65];
    inside[64] = 0x20;
    infer_amply(rt, "11 64 negations", &inside, b"")?;
    let mut beyond = [0x25u8; 66];
    beyond[65] = 0x20;
    infer_amply(rt, "11 65 negations", &beyond, b"")
}

// ---- type text

fn read(rt: &impl Print, case: &str, text: &[u8]) -> io::Result<()> {
    let mut page = [0u8; 64];
    let mut place = 0u64;
    let mut length = 0u64;
    let number = host::typecheck_read_text(text, b"", &mut page, &mut place, &mut length);
    print!(rt; "{case}: number {number}, place {place}, length {length}")?;
    say_bytes(rt, &page, length)
}

fn texts(rt: &impl Print) -> io::Result<()> {
    read(rt, "12 (ℤ)", "(ℤ)".as_bytes())?;
    read(rt, "12 ℤ×", "ℤ×".as_bytes())
}

// So many powers begin at a text's start, and ℤ stands behind them: four bytes a power, then three. What follows stays.
fn nest(text: &mut [u8], powers: usize) {
    let (begins, rest) = text.split_at_mut(text.len().min(powers.saturating_mul(4)));
    for sign in begins.chunks_exact_mut(4) {
        sign.copy_from_slice("ℙ(".as_bytes());
    }
    if rest.len() >= 3 {
        rest[..3].copy_from_slice("ℤ".as_bytes());
    }
}

// 32 and 33 powers of ℤ, in pages of their length: this program takes no memory.
fn powers(rt: &impl Print) -> io::Result<()> {
    let mut inside = [b')'; 163];
    nest(&mut inside, 32);
    read(rt, "12 32 powers", &inside)?;
    let mut beyond = [b')'; 168];
    nest(&mut beyond, 33);
    read(rt, "12 33 powers", &beyond)
}

fn main(rt: HostRuntime) -> io::Result<()> {
    membership(&rt)?;
    problems(&rt)?;
    spelled(&rt)?;
    small(&rt)?;
    nested(&rt)?;
    texts(&rt)?;
    powers(&rt)
}

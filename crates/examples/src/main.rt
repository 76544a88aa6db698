// The checked examples of varints and elements (rule 12.4), run by the proved functions: each line is what was found.
#![tactic(auto)]

use std::io;

fn say_number(rt: &impl Print, n: u64) -> io::Result<()> {
    let mut digits = [0u8; 20];
    let k = decimal::put_decimal(&mut digits, 0, n);
    rt.write_all(scan::part(&digits, 0, k))
}

// Each byte as a space and two digits.
fn say_bytes(rt: &impl Print, bytes: &[u8]) -> io::Result<()> {
    for &b in bytes {
        say_byte(rt, b)?;
    }
    Ok(())
}

fn say_byte(rt: &impl Print, b: u8) -> io::Result<()> {
    let text = [b' ', hexdigits::digit_of(b / 16), hexdigits::digit_of(b)];
    rt.write_all(&text)
}

// The shortest spelling of a number.
fn spelled(rt: &impl Print, label: &[u8], n: u64) -> io::Result<()> {
    rt.write_all(label)?;
    say_number(rt, n)?;
    rt.write_all(b" is")?;
    let mut bytes = [0u8; 10];
    let k = varint::put_varint(&mut bytes, 0, n);
    say_bytes(rt, scan::part(&bytes, 0, k))?;
    rt.write_all(b"\n")
}

// What a spelling reads as.
fn read(rt: &impl Print, label: &[u8], bytes: &[u8]) -> io::Result<()> {
    rt.write_all(label)?;
    say_bytes(rt, bytes)?;
    match varint::varint(bytes, 0) {
        Ok((n, _)) => {
            rt.write_all(b" reads as ")?;
            say_number(rt, n)?;
        }
        Err(r) => {
            rt.write_all(b" is refusal ")?;
            say_number(rt, r.reason.number() as u64)?;
            rt.write_all(b" at ")?;
            say_number(rt, r.place as u64)?;
        }
    }
    rt.write_all(b"\n")
}

// The strict element of a text.
fn element(rt: &impl Print, label: &[u8], text: &[u8]) -> io::Result<()> {
    rt.write_all(label)?;
    rt.write_all(b"'")?;
    rt.write_all(text)?;
    rt.write_all(b"' is")?;
    let mut bytes = [0u8; 16];
    let k = strict::put_packed_text(&mut bytes, 0, text);
    say_bytes(rt, scan::part(&bytes, 0, k))?;
    rt.write_all(b"\n")
}

// A write that fails ends the program with the error.
fn main(rt: HostRuntime) -> io::Result<()> {
    spelled(&rt, b"(1) ", 0)?;
    spelled(&rt, b"(2) ", 127)?;
    spelled(&rt, b"(3) ", 128)?;
    spelled(&rt, b"(4) ", 1720000000)?;
    read(&rt, b"(5)", b"\xff\xff\xff\xff\xff\xff\xff\xff\xff\x02")?;
    read(&rt, b"(6)", b"\x80")?;
    read(&rt, b"(7)", b"\x80\x00")?;
    element(&rt, b"(8) ", b"ab")?;
    element(&rt, b"(9) ", b"AB")?;
    element(&rt, b"(10) ", b"abc")?;
    element(&rt, b"(11) ", b"")
}

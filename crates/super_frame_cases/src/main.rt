// Makes the super-frame of each case on standard input, and prints the case anew with its digests and its ends.
#![tactic(auto)]

ghost use Rattle.std.specs.Prelude.{◌≡◌, IfOk, vec_items};
ghost use Rattle.super_frame_cases.specs.Pairs.{is_capital, read_pairs};

mod packets;

use anyhow::{Context, anyhow};
use digests::{crc32, fnv1a};
use frame_layout::super_frame_size;
use hexadecimal::{Hex, HexText};
use packets::packets;
use plan_formats::{Order, Tmcc, read_plan};
use std::alloc::{AllocError, Global};
use std::io::{BufRead, BufReader};
use tmcc_word::word;

// How many bytes of each end are printed.
const ENDS: usize = 32;

// The super-frame of a case: a plan file, an order of change and the number of the first packet.
fn frame_bytes(rt: &HostRuntime, file: &[u8], order: u8, start: u16) -> anyhow::Result<Vec<u8>> {
    let heap = rt.alloc();
    let Ok(plan) = read_plan(file) else {
        return Err(anyhow!("a plan that is refused"));
    };
    let Some(order) = Order::new(order) else {
        return Err(anyhow!("an order of change above 31"));
    };
    let tmcc = word(&Tmcc { order, plan });
    let carried = packets(heap, &plan, start)?;
    let mut out = vec![in heap; 0; super_frame_size(plan.slots())]?;
    if super_frame::write(&plan, &tmcc, carried.as_slice(), out.as_mut_slice()).is_err() {
        return Err(anyhow!("a length that is refused"));
    }
    Ok(out)
}

// Whether a character is a hexadecimal digit, a letter only in capitals.
fn is_capital(c: u8) -> bool
    ensures { result ≡ is_capital c }
{
    c.is_ascii_digit() || (b'A'..=b'F').contains(&c)
}

// The bytes of a plan's text: a pair that is not two digits in capitals is passed over, and so is a last character without a second.
fn plan_bytes(heap: Global, text: &[u8]) -> Result<Vec<u8>, AllocError>
    ensures { IfOk result (λ v. vec_items v ≡ read_pairs text.now) }
{
    let mut bytes = Vec::new(heap);
    let mut rest = text;
    while let [high, low, others @ ..] = rest {
        if is_capital(*high) && is_capital(*low) {
            let digits = HexText::new(&rest[..2]).unwrap();
            bytes.extend_from_slice(digits.to_vec(heap)?.as_slice())?;
        }
        rest = others;
    }
    Ok(bytes)
}

// Prints a case anew.
fn answer(rt: &HostRuntime, case: &str) -> anyhow::Result<()> {
    let mut fields = case.split(' ');
    let plan = fields.next().context("no plan")?;
    let order = fields.next().context("no order")?;
    let start = fields.next().context("no start")?;
    let file = plan_bytes(rt.alloc(), plan.as_bytes())?;
    let bytes = frame_bytes(
        rt,
        file.as_slice(),
        order.parse::<u8>()?,
        start.parse::<u16>()?,
    )?;
    let bytes = bytes.as_slice();
    let first = Hex(bytes.first_chunk::<ENDS>().context("a short super-frame")?);
    let last = Hex(bytes.last_chunk::<ENDS>().context("a short super-frame")?);
    let crc = crc32(bytes);
    let hash = fnv1a(bytes);
    println!(rt; "{plan} {order} {start} {crc:08X} {hash:016X} {first} {last}")?;
    Ok(())
}

fn run(rt: &HostRuntime) -> anyhow::Result<()> {
    for line in BufReader::new(rt.alloc(), rt.stdin())?.lines(rt.alloc()) {
        let line = line?;
        answer(rt, line.as_str())?;
    }
    Ok(())
}

fn main(rt: HostRuntime) -> anyhow::Result<()> {
    run(&rt)
}

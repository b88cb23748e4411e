// ID and IF: decoding the first entry of the instruction buffer, and fetching another.
ghost use Rattle.std.specs.Prelude.{◌≡◌, ◌<◌, ◌^◌, ℕ, true, drop, length, slice_get};
ghost use Rattle.inst_buf.specs.Buffer.{entries, packed};
ghost use Rattle.cyc_machine.specs.Pipeline as pipeline;

use crate::fate::Fate;
use crate::registers::RegisterFile;
use elf_load::Image;
use inst_buf::{InstBuf, SLOTS, Slot};
use pipe_latch::{IdEx, MemWb, late};
use rv_table::{FETCH_FAULT_CODE, Op, decode, delay_of};

// The next ID/EX.
#[tactic(auto, unfolding(crate::specs::Pipeline::decoded_after))]
pub fn decoded_after(
    fate: &Fate,
    d: &IdEx,
    buffer: &InstBuf,
    w: &MemWb,
    registers: &RegisterFile,
) -> IdEx
    ensures { result ≡ pipeline.decoded_after fate.now d.now (entries buffer.now) w.now registers.now }
{
    match fate {
        Fate::Dropped => IdEx::empty(),
        Fate::Stays => stalled(d, w),
        Fate::Absent | Fate::Goes { .. } => taken(buffer.head(), w, registers),
    }
}

// ID/EX that stays takes the late values, and waits one cycle less.
fn stalled(d: &IdEx, w: &MemWb) -> IdEx
    ensures { result ≡ pipeline.stalled d.now w.now }
{
    let mut next = *d;
    next.a = late(d.rs1, d.a, w);
    next.b = late(d.rs2, d.b, w);
    next.count = d.count.saturating_sub(1);
    next
}

fn taken(head: Option<Slot>, w: &MemWb, registers: &RegisterFile) -> IdEx
    ensures { result ≡ pipeline.taken head w.now registers.now }
{
    match head {
        Some(entry) => decoded(&entry, w, registers),
        None => IdEx::empty(),
    }
}

#[tactic(auto, unfolding(crate::specs::Pipeline::decoded))]
fn decoded(entry: &Slot, w: &MemWb, registers: &RegisterFile) -> IdEx
    ensures { result ≡ pipeline.decoded entry.now w.now registers.now }
{
    let op = op_of_entry(entry);
    IdEx {
        valid: true,
        pc: entry.pc,
        op: op.code,
        rd: op.rd,
        rs1: op.rs1,
        rs2: op.rs2,
        a: held_value(w, registers, op.rs1),
        b: held_value(w, registers, op.rs2),
        imm: op.imm,
        count: delay_of(op.code),
    }
}

// The operation of an entry's word, with the fetch fault's code where its fault bit is set.
fn op_of_entry(entry: &Slot) -> Op
    ensures op { result ≡ pipeline.op_of_entry entry.now }
    ensures code { result.code < 64 }
    ensures rd { result.rd < 32 }
    ensures rs1 { result.rs1 < 32 }
    ensures rs2 { result.rs2 < 32 }
{
    let mut op = decode(entry.word);
    if entry.fault {
        op.code = FETCH_FAULT_CODE;
    }
    op
}

// The value that decoding holds for a register.
fn held_value(w: &MemWb, registers: &RegisterFile, rs: u8) -> u32
    requires { rs < 32 }
    ensures { result ≡ pipeline.held_value w.now registers.now rs }
{
    if rs == 0 {
        0
    } else {
        late(rs, registers.read(rs), w)
    }
}

// The instruction buffer after the cycle; `pc` is the word address that is fetched.
#[tactic(auto, unfolding(crate::specs::Pipeline::entries_after))]
pub fn update_buffer(buffer: &mut InstBuf, fate: &Fate, image: &Image, pc: u32)
    requires { pc < 2 ^ 30 }
    ensures { buffer.new ≡ packed (pipeline.entries_after image.now fate.now pc (entries buffer.old)) }
{
    match fate {
        Fate::Dropped => buffer.clear(),
        Fate::Stays => fill(buffer, image, pc),
        Fate::Absent => take_and_fill(buffer, image, pc),
        Fate::Goes { .. } => take_and_fill(buffer, image, pc),
    }
}

// The first entry was decoded.
fn take_and_fill(buffer: &mut InstBuf, image: &Image, pc: u32)
    requires { pc < 2 ^ 30 }
    ensures { buffer.new ≡ packed (pipeline.filled image.now pc (drop 1 (entries buffer.old))) }
{
    buffer.take_and_push(fetched(image, pc));
}

// Fetches one more entry where there is room.
fn fill(buffer: &mut InstBuf, image: &Image, pc: u32)
    requires { pc < 2 ^ 30 }
    ensures { buffer.new ≡ packed (pipeline.filled image.now pc (entries buffer.old)) }
{
    if buffer.len() < SLOTS as u32 {
        buffer.push(fetched(image, pc));
    } else {
        buffer.ripple();
    }
}

fn fetched(image: &Image, pc: u32) -> Slot
    requires { pc < 2 ^ 30 }
    ensures entry { result ≡ pipeline.fetched image.now pc }
    ensures valid { result.valid ≡ true }
{
    match image.fetch(pc) {
        Some(word) => Slot {
            valid: true,
            fault: false,
            pc,
            word,
        },
        None => Slot {
            valid: true,
            fault: true,
            pc,
            word: 0,
        },
    }
}

// The next fetch address; `predicted` is the predicted next address.
#[tactic(auto, unfolding(crate::specs::Pipeline::pc_after))]
pub fn pc_after(fate: &Fate, predicted: u32, buffer: &InstBuf, npc: u32, pc: u32) -> u32
    requires predicted { predicted < 2 ^ 30 }
    requires npc { npc < 2 ^ 30 }
    requires pc { pc < 2 ^ 30 }
    ensures next { result ≡ pipeline.pc_after fate.now predicted (entries buffer.now) npc pc }
    ensures within { result < 2 ^ 30 }
{
    match fate {
        Fate::Dropped => npc,
        Fate::Stays => if_room(buffer.len(), predicted, pc),
        Fate::Absent | Fate::Goes { .. } => if_room(buffer.len().saturating_sub(1), predicted, pc),
    }
}

fn if_room(remaining: u32, predicted: u32, pc: u32) -> u32
    ensures next { result ≡ pipeline.if_room remaining predicted pc }
    ensures within { predicted < 2 ^ 30 → pc < 2 ^ 30 → result < 2 ^ 30 }
{
    if remaining < SLOTS as u32 {
        predicted
    } else {
        pc
    }
}

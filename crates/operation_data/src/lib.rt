// The operations on data words: LODI, LODX, STOI, STOX. Each acts at once: the public function tests SAC, DAC and the fields and looks the operands up, the function `_found` tests what
// stands there, then writes. The operands that were found are d, s0, s1 and s2; data is the data window by bytes.
#![tactic(auto)]

ghost use Rattle.std.specs.Prelude.{◌≡◌, ℕ, ◌+◌, ◌%◌, ◌^◌, ◌||◌, List, get_or, set};
ghost use Rattle.word.specs.declared.Instruction.{Instruction};
ghost use Rattle.word.specs.Parts.{part_at, extracted, placed};
ghost use Rattle.window.specs.declared.Row.{Row};
ghost use Rattle.window.specs.Windows.{data_window};
ghost use Rattle.window.specs.Memories.{memory};
ghost use Rattle.window.specs.Code.Spans.{Span, byte_below};
ghost use Rattle.operand.specs.declared.Role.TheVariants.{Unused, Destination, Source};
ghost use Rattle.operand.specs.declared.Operand.{Operand};
ghost use Rattle.operand.specs.declared.Operand.TheVariants.{Absent};
ghost use Rattle.operand.specs.Field.{illegal_field};
ghost use Rattle.operand.specs.Code.Spans.{Spans};
ghost use Rattle.operation.specs.declared.Operation.TheVariants.{LoadIndirect, LoadIndexed, StoreIndirect, StoreIndexed};
ghost use Rattle.operation.specs.Roles.{roles, illegal_load, illegal_store};
ghost use Rattle.operation.specs.Specified.{specified_part};
ghost use Rattle.operation.specs.Perform.{data_reach, load_waits, store_waits};
ghost use Rattle.operation.specs.Environment.{environment_of};
ghost use Rattle.operation.specs.Decide.{decide_found, decide_listed};
ghost use Rattle.operation.specs.Code.FoundOperands.{instruction, all_found_at};
ghost use Rattle.step.specs.Code.Performs.{Performs};
ghost use Rattle.operation_checks.specs.Code.Operands.{DestinationFound, SourceFound};
ghost use Rattle.operation_data.specs.Code.Reached.{whole_word, tags_left};

use operand::Role;
use operation::{Bounds, Course, Process, Trap, Windows};
use operation_checks::{FoundDestination, FoundSource};
use window::{EMPTY_DATA, FULL_DATA};
use word::Part;

// The low 32 bits of S1.
fn indirect_address(s1: u64) -> u32
    ensures { result ≡ s1 % 2 ^ 32 }
{
    (s1 % 0x1_0000_0000) as u32
}

// The low 32 bits of S1, plus S2 modulo 2^32.
fn indexed_address(s1: u64, s2: u64) -> u32
    ensures { result ≡ (s1 + s2) % 2 ^ 32 }
{
    ((s1 % 0x1_0000_0000 + s2 % 0x1_0000_0000) % 0x1_0000_0000) as u32
}

fn part(width: u8, place: u8) -> Option<Part>
    ensures { result ≡ Some (part_at width place) }
{
    Some(Part { width, place })
}

// B = 0, and the low three address bits are 0.
fn whole(low: u16, e: u32) -> bool
    ensures { result ≡ whole_word low e }
{
    if low / 16 % 2 == 1 {
        return false;
    }
    e % 8 == 0
}

// The part that B and the low three address bits specify: the whole word first, then a byte, a quarter, a half.
fn specified_part(low: u16, e: u32) -> Option<Part>
    ensures { result ≡ specified_part low e }
{
    if whole(low, e) {
        return part(64, 0);
    }
    let bits = (e % 8) as u8;
    if low / 16 % 2 == 1 {
        return part(8, bits);
    }
    if bits % 2 == 1 {
        return part(16, bits / 2);
    }
    if bits == 4 {
        return None;
    }
    part(32, bits / 4)
}

// Check 7: 14, then 12; else the part of a data word, by the word's real address.
fn data_reach(low: u16, data: Bounds, e: u32) -> Result<(usize, Part), Trap>
    ensures { result ≡ data_reach low e (byte_below data.base data.end e) }
{
    let Some(a) = window::byte_below(data.base, data.end, e) else {
        return Err(Trap::ProtectionViolation);
    };
    let Some(part) = specified_part(low, e) else {
        return Err(Trap::IllegalInstruction);
    };
    Ok((a / 8, part))
}

// Check 2: SAC and DAC, or the fields by their roles.
fn illegal(access: bool, r1: Role, first: u16, r2: Role, second: u16, r3: Role, third: u16) -> bool
    ensures { result ≡ access || (illegal_field r1 first || (illegal_field r2 second || illegal_field r3 third)) }
{
    if access {
        return true;
    }
    operation_checks::illegal_fields(r1, first, r2, second, r3, third)
}

// The part of the data word p that a load takes; the whole word first.
fn loaded(part: Part, p: usize, data_words: &[u64]) -> u64
    ensures { result ≡ extracted part (get_or data_words.now p 0) }
{
    if part.width >= 64 {
        return window::at_or(data_words, p, 0);
    }
    word::extracted(part, window::at_or(data_words, p, 0))
}

// The data word p that a store leaves, with the low bits of a word in its part; the whole word first.
fn stored(part: Part, word: u64, p: usize, data_words: &[u64]) -> u64
    ensures { result ≡ placed part word (get_or data_words.now p 0) }
{
    if part.width >= 64 {
        return word;
    }
    word::placed(part, word, window::at_or(data_words, p, 0))
}

// SAC 3, or DAC, which a load does not use; neither first.
fn illegal_load(low: u16) -> bool
    ensures { result ≡ illegal_load low }
{
    if low % 16 == 0 {
        return false;
    }
    if low / 4 % 4 == 3 {
        return true;
    }
    low % 4 != 0
}

// SAC 1 and 2 wait until full.
fn load_waits(low: u16, p: usize, data_tags: &[u8]) -> bool
    ensures { result ≡ load_waits low (get_or data_tags.now p 0) }
{
    if low / 4 % 4 == 0 {
        return false;
    }
    window::at_or(data_tags, p, 0) == EMPTY_DATA
}

// SAC 2 sets the data word empty.
fn load_leaves(low: u16, p: usize, data_tags: &mut [u8])
    ensures { data_tags.new ≡ tags_left low p data_tags.old }
{
    if low / 4 % 4 == 2 {
        window::set_at(data_tags, p, EMPTY_DATA);
    }
}

// LODI from check 5 on.
fn load_indirect_found(
    low: u16,
    data: Bounds,
    psws: &mut [u64],
    process: Process,
    d: FoundDestination,
    s1: FoundSource,
    constant_tags: &[u8],
    register_tags: &mut [u8],
    register_words: &mut [u64],
    data_tags: &mut [u8],
    data_words: &[u64],
) -> Course
    ensures { (row : Row) (i : Instruction) (flag fresh : ℕ) (program constant_words : List ℕ) (third : ℕ) (od oa : Operand) → Span (data_window row) data.base data.end → process.psw ≡ get_or psws.old process.pt 0 → DestinationFound row od d → SourceFound row register_tags.old register_words.old (memory constant_tags.now constant_words) oa s1 → Performs row (decide_found (LoadIndirect low) (environment_of row process.psw flag program (memory constant_tags.now constant_words) (memory register_tags.old register_words.old) (memory data_tags.old data_words.now)) i (all_found_at (memory register_tags.old register_words.old) (memory constant_tags.now constant_words) (roles Destination Source Unused) d.field s1.field third od oa Absent)) process.pt fresh result psws.old psws.new (memory register_tags.old register_words.old) (memory register_tags.new register_words.new) (memory data_tags.old data_words.now) (memory data_tags.new data_words.now) }
{
    if operation_checks::waits_d_s1(d, s1, register_tags) {
        return Course::Waits;
    }
    if operation_checks::masked(process.psw, s1, constant_tags) {
        return Course::DataException;
    }
    match data_reach(low, data, indirect_address(s1.word)) {
        Err(trap) => Course::from(trap),
        Ok((p, part)) => {
            let word = loaded(part, p, data_words);
            if load_waits(low, p, data_tags) {
                return Course::WaitsForData; // an unmet data state waits
            }
            operation_checks::write_d_s1(d, s1, word, 0, register_tags, register_words);
            load_leaves(low, p, data_tags);
            operation_checks::continues(psws, process.pt, word::next(process.psw))
        }
    }
}

// LODI: D gets the part of a data word at the address S1.
pub fn load_indirect(
    low: u16,
    windows: Windows,
    psws: &mut [u64],
    process: Process,
    first: u16,
    second: u16,
    third: u16,
    constant_tags: &[u8],
    constant_words: &[u64],
    register_tags: &mut [u8],
    register_words: &mut [u64],
    data_tags: &mut [u8],
    data_words: &[u64],
) -> Course
    ensures { (row : Row) (code flag fresh : ℕ) (program : List ℕ) → Spans row windows.constants windows.registers.base windows.registers.end → Span (data_window row) windows.data.base windows.data.end → process.psw ≡ get_or psws.old process.pt 0 → Performs row (decide_listed (roles Destination Source Unused) (LoadIndirect low) (environment_of row process.psw flag program (memory constant_tags.now constant_words.now) (memory register_tags.old register_words.old) (memory data_tags.old data_words.now)) (instruction code first second third)) process.pt fresh result psws.old psws.new (memory register_tags.old register_words.old) (memory register_tags.new register_words.new) (memory data_tags.old data_words.now) (memory data_tags.new data_words.now) }
{
    if illegal(
        illegal_load(low),
        Role::Destination,
        first,
        Role::Source,
        second,
        Role::Unused,
        third,
    ) {
        return Course::IllegalInstruction;
    }
    let Some(r) = operand::destination(
        windows.registers.base,
        windows.registers.end,
        process.psw,
        first,
    ) else {
        return Course::ProtectionViolation;
    };
    let d = operation_checks::found_destination(first, r);
    let Some(a) = operand::source(
        windows.constants,
        windows.registers.base,
        windows.registers.end,
        process.psw,
        second,
    ) else {
        return Course::ProtectionViolation;
    };
    let s1 = operation_checks::found_source(
        second,
        a,
        constant_words,
        register_tags,
        register_words,
    );
    load_indirect_found(
        low,
        windows.data,
        psws,
        process,
        d,
        s1,
        constant_tags,
        register_tags,
        register_words,
        data_tags,
        data_words,
    )
}

// LODX from check 5 on.
fn load_indexed_found(
    low: u16,
    data: Bounds,
    psws: &mut [u64],
    process: Process,
    d: FoundDestination,
    s1: FoundSource,
    s2: FoundSource,
    constant_tags: &[u8],
    register_tags: &mut [u8],
    register_words: &mut [u64],
    data_tags: &mut [u8],
    data_words: &[u64],
) -> Course
    ensures { (row : Row) (i : Instruction) (flag fresh : ℕ) (program constant_words : List ℕ) (od oa ob : Operand) → Span (data_window row) data.base data.end → process.psw ≡ get_or psws.old process.pt 0 → DestinationFound row od d → SourceFound row register_tags.old register_words.old (memory constant_tags.now constant_words) oa s1 → SourceFound row register_tags.old register_words.old (memory constant_tags.now constant_words) ob s2 → Performs row (decide_found (LoadIndexed low) (environment_of row process.psw flag program (memory constant_tags.now constant_words) (memory register_tags.old register_words.old) (memory data_tags.old data_words.now)) i (all_found_at (memory register_tags.old register_words.old) (memory constant_tags.now constant_words) (roles Destination Source Source) d.field s1.field s2.field od oa ob)) process.pt fresh result psws.old psws.new (memory register_tags.old register_words.old) (memory register_tags.new register_words.new) (memory data_tags.old data_words.now) (memory data_tags.new data_words.now) }
{
    if operation_checks::waits_d_s1_s2(d, s1, s2, register_tags) {
        return Course::Waits;
    }
    if operation_checks::masked_s1_s2(process.psw, s1, s2, constant_tags) {
        return Course::DataException;
    }
    match data_reach(low, data, indexed_address(s1.word, s2.word)) {
        Err(trap) => Course::from(trap),
        Ok((p, part)) => {
            let word = loaded(part, p, data_words);
            if load_waits(low, p, data_tags) {
                return Course::WaitsForData;
            }
            operation_checks::write_d_s1_s2(d, s1, s2, word, 0, register_tags, register_words);
            load_leaves(low, p, data_tags);
            operation_checks::continues(psws, process.pt, word::next(process.psw))
        }
    }
}

// LODX: D gets the part of a data word at the address S1 plus S2.
pub fn load_indexed(
    low: u16,
    windows: Windows,
    psws: &mut [u64],
    process: Process,
    first: u16,
    second: u16,
    third: u16,
    constant_tags: &[u8],
    constant_words: &[u64],
    register_tags: &mut [u8],
    register_words: &mut [u64],
    data_tags: &mut [u8],
    data_words: &[u64],
) -> Course
    ensures { (row : Row) (code flag fresh : ℕ) (program : List ℕ) → Spans row windows.constants windows.registers.base windows.registers.end → Span (data_window row) windows.data.base windows.data.end → process.psw ≡ get_or psws.old process.pt 0 → Performs row (decide_listed (roles Destination Source Source) (LoadIndexed low) (environment_of row process.psw flag program (memory constant_tags.now constant_words.now) (memory register_tags.old register_words.old) (memory data_tags.old data_words.now)) (instruction code first second third)) process.pt fresh result psws.old psws.new (memory register_tags.old register_words.old) (memory register_tags.new register_words.new) (memory data_tags.old data_words.now) (memory data_tags.new data_words.now) }
{
    if illegal(
        illegal_load(low),
        Role::Destination,
        first,
        Role::Source,
        second,
        Role::Source,
        third,
    ) {
        return Course::IllegalInstruction;
    }
    let Some(r) = operand::destination(
        windows.registers.base,
        windows.registers.end,
        process.psw,
        first,
    ) else {
        return Course::ProtectionViolation;
    };
    let d = operation_checks::found_destination(first, r);
    let Some(a) = operand::source(
        windows.constants,
        windows.registers.base,
        windows.registers.end,
        process.psw,
        second,
    ) else {
        return Course::ProtectionViolation;
    };
    let s1 = operation_checks::found_source(
        second,
        a,
        constant_words,
        register_tags,
        register_words,
    );
    let Some(b) = operand::source(
        windows.constants,
        windows.registers.base,
        windows.registers.end,
        process.psw,
        third,
    ) else {
        return Course::ProtectionViolation;
    };
    let s2 = operation_checks::found_source(
        third,
        b,
        constant_words,
        register_tags,
        register_words,
    );
    load_indexed_found(
        low,
        windows.data,
        psws,
        process,
        d,
        s1,
        s2,
        constant_tags,
        register_tags,
        register_words,
        data_tags,
        data_words,
    )
}

// SAC, which a store does not use, or DAC 1 or 3.
fn illegal_store(low: u16) -> bool
    ensures { result ≡ illegal_store low }
{
    if low / 4 % 4 != 0 {
        return true;
    }
    if low % 4 == 0 {
        return false;
    }
    low % 4 != 2
}

// DAC 2 waits until empty.
fn store_waits(low: u16, p: usize, data_tags: &[u8]) -> bool
    ensures { result ≡ store_waits low (get_or data_tags.now p 0) }
{
    if low % 4 == 2 {
        return window::at_or(data_tags, p, 0) != EMPTY_DATA;
    }
    false
}

// A store leaves full.
fn store_leaves(p: usize, word: u64, data_tags: &mut [u8], data_words: &mut [u64])
    ensures { (data_tags.new ≡ set data_tags.old p 1) × (data_words.new ≡ set data_words.old p word) }
{
    window::set_at(data_tags, p, FULL_DATA);
    window::set_at(data_words, p, word);
}

// STOI from check 5 on.
fn store_indirect_found(
    low: u16,
    data: Bounds,
    psws: &mut [u64],
    process: Process,
    s1: FoundSource,
    s2: FoundSource,
    constant_tags: &[u8],
    register_tags: &mut [u8],
    register_words: &[u64],
    data_tags: &mut [u8],
    data_words: &mut [u64],
) -> Course
    ensures { (row : Row) (i : Instruction) (flag fresh : ℕ) (program constant_words : List ℕ) (first : ℕ) (oa ob : Operand) → Span (data_window row) data.base data.end → process.psw ≡ get_or psws.old process.pt 0 → SourceFound row register_tags.old register_words.now (memory constant_tags.now constant_words) oa s1 → SourceFound row register_tags.old register_words.now (memory constant_tags.now constant_words) ob s2 → Performs row (decide_found (StoreIndirect low) (environment_of row process.psw flag program (memory constant_tags.now constant_words) (memory register_tags.old register_words.now) (memory data_tags.old data_words.old)) i (all_found_at (memory register_tags.old register_words.now) (memory constant_tags.now constant_words) (roles Unused Source Source) first s1.field s2.field Absent oa ob)) process.pt fresh result psws.old psws.new (memory register_tags.old register_words.now) (memory register_tags.new register_words.now) (memory data_tags.old data_words.old) (memory data_tags.new data_words.new) }
{
    if operation_checks::waits_s1_s2(s1, s2) {
        return Course::Waits;
    }
    if operation_checks::masked_s1_s2(process.psw, s1, s2, constant_tags) {
        return Course::DataException;
    }
    match data_reach(low, data, indirect_address(s1.word)) {
        Err(trap) => Course::from(trap),
        Ok((p, part)) => {
            let word = stored(part, s2.word, p, data_words);
            if store_waits(low, p, data_tags) {
                return Course::WaitsForData;
            }
            operation_checks::release_s1_s2(s1, s2, register_tags);
            store_leaves(p, word, data_tags, data_words);
            operation_checks::continues(psws, process.pt, word::next(process.psw))
        }
    }
}

// STOI: the low bits of S2 go into the part of a data word at the address S1.
pub fn store_indirect(
    low: u16,
    windows: Windows,
    psws: &mut [u64],
    process: Process,
    first: u16,
    second: u16,
    third: u16,
    constant_tags: &[u8],
    constant_words: &[u64],
    register_tags: &mut [u8],
    register_words: &[u64],
    data_tags: &mut [u8],
    data_words: &mut [u64],
) -> Course
    ensures { (row : Row) (code flag fresh : ℕ) (program : List ℕ) → Spans row windows.constants windows.registers.base windows.registers.end → Span (data_window row) windows.data.base windows.data.end → process.psw ≡ get_or psws.old process.pt 0 → Performs row (decide_listed (roles Unused Source Source) (StoreIndirect low) (environment_of row process.psw flag program (memory constant_tags.now constant_words.now) (memory register_tags.old register_words.now) (memory data_tags.old data_words.old)) (instruction code first second third)) process.pt fresh result psws.old psws.new (memory register_tags.old register_words.now) (memory register_tags.new register_words.now) (memory data_tags.old data_words.old) (memory data_tags.new data_words.new) }
{
    if illegal(
        illegal_store(low),
        Role::Unused,
        first,
        Role::Source,
        second,
        Role::Source,
        third,
    ) {
        return Course::IllegalInstruction;
    }
    let Some(a) = operand::source(
        windows.constants,
        windows.registers.base,
        windows.registers.end,
        process.psw,
        second,
    ) else {
        return Course::ProtectionViolation;
    };
    let s1 = operation_checks::found_source(
        second,
        a,
        constant_words,
        register_tags,
        register_words,
    );
    let Some(b) = operand::source(
        windows.constants,
        windows.registers.base,
        windows.registers.end,
        process.psw,
        third,
    ) else {
        return Course::ProtectionViolation;
    };
    let s2 = operation_checks::found_source(
        third,
        b,
        constant_words,
        register_tags,
        register_words,
    );
    store_indirect_found(
        low,
        windows.data,
        psws,
        process,
        s1,
        s2,
        constant_tags,
        register_tags,
        register_words,
        data_tags,
        data_words,
    )
}

// STOX from check 5 on.
fn store_indexed_found(
    low: u16,
    data: Bounds,
    psws: &mut [u64],
    process: Process,
    s0: FoundSource,
    s1: FoundSource,
    s2: FoundSource,
    constant_tags: &[u8],
    register_tags: &mut [u8],
    register_words: &[u64],
    data_tags: &mut [u8],
    data_words: &mut [u64],
) -> Course
    ensures { (row : Row) (i : Instruction) (flag fresh : ℕ) (program constant_words : List ℕ) (oc oa ob : Operand) → Span (data_window row) data.base data.end → process.psw ≡ get_or psws.old process.pt 0 → SourceFound row register_tags.old register_words.now (memory constant_tags.now constant_words) oc s0 → SourceFound row register_tags.old register_words.now (memory constant_tags.now constant_words) oa s1 → SourceFound row register_tags.old register_words.now (memory constant_tags.now constant_words) ob s2 → Performs row (decide_found (StoreIndexed low) (environment_of row process.psw flag program (memory constant_tags.now constant_words) (memory register_tags.old register_words.now) (memory data_tags.old data_words.old)) i (all_found_at (memory register_tags.old register_words.now) (memory constant_tags.now constant_words) (roles Source Source Source) s0.field s1.field s2.field oc oa ob)) process.pt fresh result psws.old psws.new (memory register_tags.old register_words.now) (memory register_tags.new register_words.now) (memory data_tags.old data_words.old) (memory data_tags.new data_words.new) }
{
    if operation_checks::waits_s0_s1_s2(s0, s1, s2) {
        return Course::Waits;
    }
    if operation_checks::masked_s0_s1_s2(process.psw, s0, s1, s2, constant_tags) {
        return Course::DataException;
    }
    match data_reach(low, data, indexed_address(s1.word, s2.word)) {
        Err(trap) => Course::from(trap),
        Ok((p, part)) => {
            let word = stored(part, s0.word, p, data_words);
            if store_waits(low, p, data_tags) {
                return Course::WaitsForData;
            }
            operation_checks::release_s0_s1_s2(s0, s1, s2, register_tags);
            store_leaves(p, word, data_tags, data_words);
            operation_checks::continues(psws, process.pt, word::next(process.psw))
        }
    }
}

// STOX: the low bits of S0 go into the part of a data word at the address S1 plus S2.
pub fn store_indexed(
    low: u16,
    windows: Windows,
    psws: &mut [u64],
    process: Process,
    first: u16,
    second: u16,
    third: u16,
    constant_tags: &[u8],
    constant_words: &[u64],
    register_tags: &mut [u8],
    register_words: &[u64],
    data_tags: &mut [u8],
    data_words: &mut [u64],
) -> Course
    ensures { (row : Row) (code flag fresh : ℕ) (program : List ℕ) → Spans row windows.constants windows.registers.base windows.registers.end → Span (data_window row) windows.data.base windows.data.end → process.psw ≡ get_or psws.old process.pt 0 → Performs row (decide_listed (roles Source Source Source) (StoreIndexed low) (environment_of row process.psw flag program (memory constant_tags.now constant_words.now) (memory register_tags.old register_words.now) (memory data_tags.old data_words.old)) (instruction code first second third)) process.pt fresh result psws.old psws.new (memory register_tags.old register_words.now) (memory register_tags.new register_words.now) (memory data_tags.old data_words.old) (memory data_tags.new data_words.new) }
{
    if illegal(
        illegal_store(low),
        Role::Source,
        first,
        Role::Source,
        second,
        Role::Source,
        third,
    ) {
        return Course::IllegalInstruction;
    }
    let Some(c) = operand::source(
        windows.constants,
        windows.registers.base,
        windows.registers.end,
        process.psw,
        first,
    ) else {
        return Course::ProtectionViolation;
    };
    let s0 = operation_checks::found_source(
        first,
        c,
        constant_words,
        register_tags,
        register_words,
    );
    let Some(a) = operand::source(
        windows.constants,
        windows.registers.base,
        windows.registers.end,
        process.psw,
        second,
    ) else {
        return Course::ProtectionViolation;
    };
    let s1 = operation_checks::found_source(
        second,
        a,
        constant_words,
        register_tags,
        register_words,
    );
    let Some(b) = operand::source(
        windows.constants,
        windows.registers.base,
        windows.registers.end,
        process.psw,
        third,
    ) else {
        return Course::ProtectionViolation;
    };
    let s2 = operation_checks::found_source(
        third,
        b,
        constant_words,
        register_tags,
        register_words,
    );
    store_indexed_found(
        low,
        windows.data,
        psws,
        process,
        s0,
        s1,
        s2,
        constant_tags,
        register_tags,
        register_words,
        data_tags,
        data_words,
    )
}

// What operations share, by the roles of their fields: D, S0, S1, S2 or unused.
// illegal_fields: check 2, an illegal access code or a nonzero unused field. found: the operand of check 4. waits: check 5. masked: check 6, a constant by its quality.
// release: sources are set empty. write: that, then the destination gets a word of a quality.
#![tactic(auto)]

ghost use Rattle.std.specs.Prelude.{◌≡◌, ◌/◌, ◌%◌, ◌^◌, ◌&&◌, ◌||◌, eqb, get_or, set};
ghost use Rattle.window.specs.Memories.{memory};
ghost use Rattle.operand.specs.declared.Role.TheVariants.{Destination, Source};
ghost use Rattle.operand.specs.Field.{access_of, illegal_field};
ghost use Rattle.operand.specs.Access.{waits_of, masked_of, destination_tag};
ghost use Rattle.operand.specs.Code.Cells.{source_tag};
ghost use Rattle.operand.specs.Code.Spans.{released};
ghost use Rattle.operation.specs.declared.Course.TheVariants.{Continues};
ghost use Rattle.operation_checks.specs.Code.Operands.{source_at, destination_at};

use operand::{Operand, Role};
use operation::Course;

// A source that was found: its field, its place, and the tag and the word that stand there, of a constant the tag of a full register.
#[derive(Clone, Copy)]
pub struct FoundSource {
    pub field: u16,
    pub place: usize,
    pub tag: u8,
    pub word: u64,
}

// A destination that was found: its field and its place.
#[derive(Clone, Copy)]
pub struct FoundDestination {
    pub field: u16,
    pub place: usize,
}

// Each field by its role.
pub fn illegal_fields(r1: Role, first: u16, r2: Role, second: u16, r3: Role, third: u16) -> bool
    ensures { result ≡ illegal_field r1 first || (illegal_field r2 second || illegal_field r3 third) }
{
    if operand::illegal_field(r1, first) {
        return true;
    }
    if operand::illegal_field(r2, second) {
        return true;
    }
    operand::illegal_field(r3, third)
}

// What stands where the field of a source leads.
pub fn found_source(
    field: u16,
    o: Operand,
    constant_words: &[u64],
    register_tags: &[u8],
    register_words: &[u64],
) -> FoundSource
    ensures { result ≡ source_at (memory register_tags.now register_words.now) constant_words.now field o }
{
    let cell = operand::cell(constant_words, register_tags, register_words, o);
    FoundSource {
        field,
        place: operand::number(o),
        tag: cell.tag,
        word: cell.word,
    }
}

// Where the field of a destination leads.
pub fn found_destination(field: u16, o: Operand) -> FoundDestination
    ensures { result ≡ destination_at field o }
{
    let place = operand::number(o);
    FoundDestination { field, place }
}

// The bits of AC are zero in a field: no access test, and nothing to set empty. A constant may have ones there.
fn plain(f: u16) -> bool
    ensures { result ≡ eqb (f / 2 ^ 11 % 2 ^ 3) 0 }
{
    (f >> 11) % 8 == 0
}

fn plain_two(f: u16, g: u16) -> bool
    ensures { result ≡ eqb (f / 2 ^ 11 % 2 ^ 3) 0 && eqb (g / 2 ^ 11 % 2 ^ 3) 0 }
{
    if plain(f) {
        return plain(g);
    }
    false
}

fn plain_three(f: u16, g: u16, h: u16) -> bool
    ensures { result ≡ eqb (f / 2 ^ 11 % 2 ^ 3) 0 && (eqb (g / 2 ^ 11 % 2 ^ 3) 0 && eqb (h / 2 ^ 11 % 2 ^ 3) 0) }
{
    if plain(f) {
        return plain_two(g, h);
    }
    false
}

// D.
pub fn waits_d(d: FoundDestination, register_tags: &[u8]) -> bool
    ensures { result ≡ waits_of Destination (access_of d.field) (get_or register_tags.now d.place 0) }
{
    operand::waits(
        Role::Destination,
        operand::access(d.field),
        window::at_or(register_tags, d.place, 0),
    )
}

// A source.
pub fn waits_source(s: FoundSource) -> bool
    ensures { result ≡ waits_of Source (access_of s.field) s.tag }
{
    operand::waits(Role::Source, operand::access(s.field), s.tag)
}

// D, S1.
pub fn waits_d_s1(d: FoundDestination, s1: FoundSource, register_tags: &[u8]) -> bool
    ensures { result ≡ waits_of Destination (access_of d.field) (get_or register_tags.now d.place 0) || waits_of Source (access_of s1.field) s1.tag }
{
    if plain_two(d.field, s1.field) {
        return false;
    }
    if waits_d(d, register_tags) {
        return true;
    }
    waits_source(s1)
}

fn sources_wait(s1: FoundSource, s2: FoundSource) -> bool
    ensures { result ≡ waits_of Source (access_of s1.field) s1.tag || waits_of Source (access_of s2.field) s2.tag }
{
    if waits_source(s1) {
        return true;
    }
    waits_source(s2)
}

// S1, S2.
pub fn waits_s1_s2(s1: FoundSource, s2: FoundSource) -> bool
    ensures { result ≡ waits_of Source (access_of s1.field) s1.tag || waits_of Source (access_of s2.field) s2.tag }
{
    if plain_two(s1.field, s2.field) {
        return false;
    }
    sources_wait(s1, s2)
}

// D, S1, S2.
pub fn waits_d_s1_s2(
    d: FoundDestination,
    s1: FoundSource,
    s2: FoundSource,
    register_tags: &[u8],
) -> bool
    ensures { result ≡ waits_of Destination (access_of d.field) (get_or register_tags.now d.place 0) || (waits_of Source (access_of s1.field) s1.tag || waits_of Source (access_of s2.field) s2.tag) }
{
    if plain_three(d.field, s1.field, s2.field) {
        return false;
    }
    if waits_d(d, register_tags) {
        return true;
    }
    sources_wait(s1, s2)
}

// S0, S1, S2.
pub fn waits_s0_s1_s2(s0: FoundSource, s1: FoundSource, s2: FoundSource) -> bool
    ensures { result ≡ waits_of Source (access_of s0.field) s0.tag || (waits_of Source (access_of s1.field) s1.tag || waits_of Source (access_of s2.field) s2.tag) }
{
    if plain_three(s0.field, s1.field, s2.field) {
        return false;
    }
    if waits_source(s0) {
        return true;
    }
    sources_wait(s1, s2)
}

// A source.
pub fn masked(psw: u64, s: FoundSource, constant_tags: &[u8]) -> bool
    ensures { result ≡ masked_of Source psw (source_tag s.field s.place s.tag constant_tags.now) }
{
    operand::masked(psw, s.field, s.place, s.tag, constant_tags)
}

// S1, S2.
pub fn masked_s1_s2(psw: u64, s1: FoundSource, s2: FoundSource, constant_tags: &[u8]) -> bool
    ensures { result ≡ masked_of Source psw (source_tag s1.field s1.place s1.tag constant_tags.now) || masked_of Source psw (source_tag s2.field s2.place s2.tag constant_tags.now) }
{
    if masked(psw, s1, constant_tags) {
        return true;
    }
    masked(psw, s2, constant_tags)
}

// S0, S1, S2.
pub fn masked_s0_s1_s2(
    psw: u64,
    s0: FoundSource,
    s1: FoundSource,
    s2: FoundSource,
    constant_tags: &[u8],
) -> bool
    ensures { result ≡ masked_of Source psw (source_tag s0.field s0.place s0.tag constant_tags.now) || (masked_of Source psw (source_tag s1.field s1.place s1.tag constant_tags.now) || masked_of Source psw (source_tag s2.field s2.place s2.tag constant_tags.now)) }
{
    if masked(psw, s0, constant_tags) {
        return true;
    }
    masked_s1_s2(psw, s1, s2, constant_tags)
}

// A source.
pub fn release(s: FoundSource, register_tags: &mut [u8])
    ensures { register_tags.new ≡ released s.field s.place s.tag register_tags.old }
{
    operand::release(s.field, s.place, s.tag, register_tags);
}

// S1, S2.
pub fn release_s1_s2(s1: FoundSource, s2: FoundSource, register_tags: &mut [u8])
    ensures { register_tags.new ≡ released s2.field s2.place s2.tag (released s1.field s1.place s1.tag register_tags.old) }
{
    if plain_two(s1.field, s2.field) {
        return;
    }
    release(s1, register_tags);
    release(s2, register_tags);
}

// S0, S1, S2.
pub fn release_s0_s1_s2(s0: FoundSource, s1: FoundSource, s2: FoundSource, register_tags: &mut [u8])
    ensures { register_tags.new ≡ released s2.field s2.place s2.tag (released s1.field s1.place s1.tag (released s0.field s0.place s0.tag register_tags.old)) }
{
    release(s0, register_tags);
    release_s1_s2(s1, s2, register_tags);
}

// The tag and the word of a register.
fn put(d: usize, tag: u8, word: u64, register_tags: &mut [u8], register_words: &mut [u64])
    ensures { (register_tags.new ≡ set register_tags.old d tag) × (register_words.new ≡ set register_words.old d word) }
{
    window::set_at(register_tags, d, tag);
    window::set_at(register_words, d, word);
}

// D.
pub fn write_d(
    d: FoundDestination,
    word: u64,
    quality: u8,
    register_tags: &mut [u8],
    register_words: &mut [u64],
)
    ensures { (register_tags.new ≡ set register_tags.old d.place (destination_tag (access_of d.field) quality)) × (register_words.new ≡ set register_words.old d.place word) }
{
    put(
        d.place,
        operand::destination_tag(operand::access(d.field), quality),
        word,
        register_tags,
        register_words,
    );
}

// S1 is let go; the tag that D is left with.
fn release_d_s1(d: FoundDestination, s1: FoundSource, quality: u8, register_tags: &mut [u8]) -> u8
    ensures { (result ≡ destination_tag (access_of d.field) quality) × (register_tags.new ≡ released s1.field s1.place s1.tag register_tags.old) }
{
    if plain_two(d.field, s1.field) {
        return quality % 8;
    }
    release(s1, register_tags);
    operand::destination_tag(operand::access(d.field), quality)
}

// D, S1.
pub fn write_d_s1(
    d: FoundDestination,
    s1: FoundSource,
    word: u64,
    quality: u8,
    register_tags: &mut [u8],
    register_words: &mut [u64],
)
    ensures { (register_tags.new ≡ set (released s1.field s1.place s1.tag register_tags.old) d.place (destination_tag (access_of d.field) quality)) × (register_words.new ≡ set register_words.old d.place word) }
{
    let tag = release_d_s1(d, s1, quality, register_tags);
    put(d.place, tag, word, register_tags, register_words);
}

// S1 and S2 are let go; the tag that D is left with.
fn release_d_s1_s2(
    d: FoundDestination,
    s1: FoundSource,
    s2: FoundSource,
    quality: u8,
    register_tags: &mut [u8],
) -> u8
    ensures { (result ≡ destination_tag (access_of d.field) quality) × (register_tags.new ≡ released s2.field s2.place s2.tag (released s1.field s1.place s1.tag register_tags.old)) }
{
    if plain_three(d.field, s1.field, s2.field) {
        return quality % 8;
    }
    release(s1, register_tags);
    release(s2, register_tags);
    operand::destination_tag(operand::access(d.field), quality)
}

// D, S1, S2.
pub fn write_d_s1_s2(
    d: FoundDestination,
    s1: FoundSource,
    s2: FoundSource,
    word: u64,
    quality: u8,
    register_tags: &mut [u8],
    register_words: &mut [u64],
)
    ensures { (register_tags.new ≡ set (released s2.field s2.place s2.tag (released s1.field s1.place s1.tag register_tags.old)) d.place (destination_tag (access_of d.field) quality)) × (register_words.new ≡ set register_words.old d.place word) }
{
    let tag = release_d_s1_s2(d, s1, s2, quality, register_tags);
    put(d.place, tag, word, register_tags, register_words);
}

// The process goes on with the PSW p.
pub fn continues(psws: &mut [u64], pt: usize, p: u64) -> Course
    ensures { (result ≡ Continues) × (psws.new ≡ set psws.old pt p) }
{
    window::set_at(psws, pt, p);
    Course::Continues
}

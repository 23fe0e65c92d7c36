// The library for programs in other languages: numbers and slices alone. include/hep.h says what each function promises.
#![tactic(auto)]

ghost use Rattle.std.specs.Prelude.{◌≡◌, ◌*◌, ◌≤◌, length, drop};
ghost use Rattle.image.specs.Image.{decode};
ghost use Rattle.image.specs.Fields.{over};
ghost use Rattle.run.specs.Schedule.{schedule_refusal};
ghost use Rattle.library.specs.Calls.{check_answer};
ghost use Rattle.library.specs.Promises.{read_answered};
ghost use Rattle.library.specs.Held.{room_from};
ghost use Rattle.report.specs.Report.{output_of};
ghost use Rattle.report_text.specs.Texts.{tally};
ghost use Rattle.batch.specs.Output.{bytes_copied, copied_into};
ghost use Rattle.filling.specs.Filling.{fill_answer};
ghost use Rattle.hep_c.specs.Answers.{number_answered, listed_answer, listed_left, sizes_listed, sizes_answer, filling_listed, filling_answer, slices, results_fit, unless_refused, lengths_refusal, image_run_refusal, image_run_answer, count_kinds, count_numbers, kinds_listed, own_listed, counts_listed, image_run_left, ImageRunPromise, counts_answered};
ghost use Rattle.window.specs.Limits.{tasks};

use filling::Filling;
use image::PROCESS_BYTES;
use library::Sizes;
use refusal::Refusal;
use report_text::REPORT_ROOM;
use run::{Counts, MOST_ITEMS, TASK_NUMBERS};
use step::PTS;
use window::TASKS;

// How much longer an image may get: every process in it.
const GROWTH: usize = PTS * PROCESS_BYTES;

// How many counts a run has, and each task.
const COUNT_KINDS: usize = 5;

// How many numbers of a run stand before those of its tasks: its counts, and the lengths of its image and report.
const RUN_NUMBERS: usize = COUNT_KINDS + 2;

// How many numbers hep_run counts.
const COUNTS: usize = RUN_NUMBERS + TASKS * COUNT_KINDS;

// ---- numbers

// Puts numbers to the front of a slice that has room for them.
fn put_numbers(numbers: &[u64], out: &mut [u64])
    requires { length numbers.now ≤ length out.old }
    ensures { out.new ≡ over numbers.now out.old }
{
    out[..numbers.len()].copy_from_slice(numbers);
}

// Puts numbers to the front of a slice: 7 where it has no room for them.
fn put_listed(numbers: &[u64], out: &mut [u64]) -> u32
    ensures answer { result ≡ number_answered (listed_answer (length out.old) numbers.now) }
    ensures left { out.new ≡ listed_left (listed_answer (length out.old) numbers.now) out.old }
{
    if out.len() < numbers.len() {
        return refusal::number(Refusal::ShortBuffer) as u32;
    }
    put_numbers(numbers, out);
    0
}

// ---- images

// 0 where the image is accepted, else the number of its refusal.
#[unsafe(no_mangle)]
pub extern "C" fn hep_check(image: &[u8]) -> u32
    ensures { result ≡ number_answered (check_answer (decode image.now)) }
{
    let found = image_check::check(image);
    match found {
        Err(e) => refusal::number(e) as u32,
        Ok(_) => 0,
    }
}

// The sizes of an image that was found sound: 7 where they have no room.
fn put_sizes(n: Sizes, sizes: &mut [u64]) -> u32
    ensures answer { result ≡ number_answered (listed_answer (length sizes.old) (sizes_listed n)) }
    ensures left { sizes.new ≡ listed_left (listed_answer (length sizes.old) (sizes_listed n)) sizes.old }
{
    let numbers = [
        n.rows as u64,
        n.constants as u64,
        n.registers as u64,
        n.program as u64,
        n.data_words as u64,
    ];
    put_listed(&numbers, sizes)
}

// The sizes of rows, constants, registers, program and data words go to `sizes`: the image's refusals, then 7.
#[unsafe(no_mangle)]
pub extern "C" fn hep_sizes(image: &[u8], sizes: &mut [u64]) -> u32
    ensures answer { result ≡ number_answered (sizes_answer (length sizes.old) (decode image.now)) }
    ensures left { sizes.new ≡ listed_left (sizes_answer (length sizes.old) (decode image.now)) sizes.old }
{
    let found = image_check::check(image);
    match found {
        Err(e) => refusal::number(e) as u32,
        Ok(n) => put_sizes(n, sizes),
    }
}

// ---- a run

fn counts_answered(answer: Result<Counts, Refusal>) -> Counts
    ensures { result ≡ counts_answered answer }
{
    match answer {
        Err(_) => Counts {
            executed: 0,
            waved: 0,
            trapped: 0,
            idle: 0,
            tries: 0,
        },
        Ok(c) => c,
    }
}

// Whether the slices for the results are long enough.
fn results_fit(image: usize, output: usize, counts: usize, report: usize) -> bool
    ensures { result ≡ results_fit image output counts report }
{
    GROWTH <= output && image <= output - GROWTH && COUNTS <= counts && REPORT_ROOM <= report
}

// 9 and 10.
fn check_schedule(schedule: &[u8]) -> Result<(), Refusal>
    ensures { result ≡ unless_refused (schedule_refusal schedule.now) }
{
    if MOST_ITEMS < schedule.len() {
        return Err(Refusal::ListTooLong);
    }
    if !run_schedule::items_sound(schedule) {
        return Err(Refusal::ItemOutOfRange);
    }
    Ok(())
}

// 7, then 9 and 10.
fn check_lengths(
    schedule: &[u8],
    n: Sizes,
    constant_tags: usize,
    constant_words: usize,
    register_tags: usize,
    register_words: usize,
    program: usize,
    data_tags: usize,
    data_words: usize,
    image: usize,
    output: usize,
    counts: usize,
    report: usize,
) -> Result<(), Refusal>
    ensures { result ≡ unless_refused (lengths_refusal schedule.now n (room_from tasks constant_tags constant_words register_tags register_words program data_tags data_words) image output counts report) }
{
    if !library_state::fits(
        n,
        TASKS,
        constant_tags,
        constant_words,
        register_tags,
        register_words,
        program,
        data_tags,
        data_words,
    ) {
        return Err(Refusal::ShortBuffer);
    }
    if !results_fit(image, output, counts, report) {
        return Err(Refusal::ShortBuffer);
    }
    check_schedule(schedule)
}

// The counts of a run, or of a task.
fn put_kinds(c: Counts, out: &mut [u64])
    requires { count_kinds ≤ length out.old }
    ensures { out.new ≡ over (kinds_listed c) out.old }
{
    let numbers = [
        c.executed as u64,
        c.waved as u64,
        c.trapped as u64,
        c.idle as u64,
        c.tries as u64,
    ];
    put_numbers(&numbers, out);
}

// Each task's own counts, task 1 first.
fn put_own(own: [Counts; TASK_NUMBERS], out: &mut [u64])
    requires { tasks * count_kinds ≤ length out.old }
    ensures { out.new ≡ over (own_listed (drop 1 own)) out.old }
{
    for i in 0..TASKS {
        put_kinds(own[i + 1], &mut out[i * COUNT_KINDS..]);
    }
}

// The counts of a run, the lengths of its image and report, and each task's own counts.
fn put_counts(
    c: Counts,
    own: [Counts; TASK_NUMBERS],
    image: usize,
    report: usize,
    counts: &mut [u64],
)
    requires { count_numbers ≤ length counts.old }
    ensures { counts.new ≡ over (counts_listed (tally c own) image report) counts.old }
{
    let lengths = [image as u64, report as u64];
    put_kinds(c, counts);
    put_numbers(&lengths, &mut counts[COUNT_KINDS..]);
    put_own(own, &mut counts[RUN_NUMBERS..]);
}

// Reads, runs, writes and reports, where nothing is refused. The slices go one by one, as C lends them and as hep's calls take them.
fn run_accepted(
    image: &[u8],
    n: Sizes,
    schedule: &[u8],
    constant_tags: &mut [u8],
    constant_words: &mut [u64],
    register_tags: &mut [u8],
    register_words: &mut [u64],
    program: &mut [u64],
    data_tags: &mut [u8],
    data_words: &mut [u64],
    output: &mut [u8],
    counts: &mut [u64],
    report: &mut [u8],
)
    requires found { read_answered (check_answer (decode image.now)) ≡ Ok n }
    requires fine { image_run_refusal image.now schedule.now n (slices constant_tags.old constant_words.old register_tags.old register_words.old program.old data_tags.old data_words.old output.old counts.old report.old) ≡ None }
    ensures { slices constant_tags.new constant_words.new register_tags.new register_words.new program.new data_tags.new data_words.new output.new counts.new report.new ≡ image_run_left (image_run_answer image.now schedule.now (slices constant_tags.old constant_words.old register_tags.old register_words.old program.old data_tags.old data_words.old output.old counts.old report.old) (decode image.now)) (slices constant_tags.old constant_words.old register_tags.old register_words.old program.old data_tags.old data_words.old output.old counts.old report.old) }
{
    let x = hep::read_owned(
        hep::no_rows(),
        hep::no_processes(),
        constant_tags,
        constant_words,
        register_tags,
        register_words,
        program,
        data_tags,
        data_words,
        image,
    );
    let rows = x.rows.at;
    let table = x.table;
    let y = hep::run_owned(
        rows,
        table,
        constant_tags,
        constant_words,
        register_tags,
        register_words,
        program,
        data_tags,
        data_words,
        schedule,
        n,
    );
    let at = y.rows.at;
    let table = y.table;
    let result = y.result;
    let own = result.own;
    let answer = result.answer;
    let c = counts_answered(answer);
    let w = hep::write_owned(
        at,
        table,
        constant_tags,
        constant_words,
        register_tags,
        register_words,
        program,
        data_tags,
        data_words,
        output,
        n,
    );
    let k = report_text::report_text(at, n.rows, table, c, own, report);
    put_counts(c, own, image_write::length_written(w), k, counts);
}

// A run of an image that was found sound: 7, then 9, then 10.
fn run_sound(
    image: &[u8],
    n: Sizes,
    schedule: &[u8],
    constant_tags: &mut [u8],
    constant_words: &mut [u64],
    register_tags: &mut [u8],
    register_words: &mut [u64],
    program: &mut [u64],
    data_tags: &mut [u8],
    data_words: &mut [u64],
    output: &mut [u8],
    counts: &mut [u64],
    report: &mut [u8],
) -> u32
    requires { read_answered (check_answer (decode image.now)) ≡ Ok n }
    ensures { ImageRunPromise image.now schedule.now (slices constant_tags.old constant_words.old register_tags.old register_words.old program.old data_tags.old data_words.old output.old counts.old report.old) result (slices constant_tags.new constant_words.new register_tags.new register_words.new program.new data_tags.new data_words.new output.new counts.new report.new) }
{
    let lengths = check_lengths(
        schedule,
        n,
        constant_tags.len(),
        constant_words.len(),
        register_tags.len(),
        register_words.len(),
        program.len(),
        data_tags.len(),
        data_words.len(),
        image.len(),
        output.len(),
        counts.len(),
        report.len(),
    );
    if let Err(e) = lengths {
        return refusal::number(e) as u32;
    }
    run_accepted(
        image,
        n,
        schedule,
        constant_tags,
        constant_words,
        register_tags,
        register_words,
        program,
        data_tags,
        data_words,
        output,
        counts,
        report,
    );
    0
}

// Reads the image into the memories, runs the schedule, and writes the image after the run, the counts and the report: the image's refusals, then 7,
// then 9 and 10.
#[unsafe(no_mangle)]
pub extern "C" fn hep_run(
    image: &[u8],
    schedule: &[u8],
    constant_tags: &mut [u8],
    constant_words: &mut [u64],
    register_tags: &mut [u8],
    register_words: &mut [u64],
    program: &mut [u64],
    data_tags: &mut [u8],
    data_words: &mut [u64],
    output: &mut [u8],
    counts: &mut [u64],
    report: &mut [u8],
) -> u32
    ensures { ImageRunPromise image.now schedule.now (slices constant_tags.old constant_words.old register_tags.old register_words.old program.old data_tags.old data_words.old output.old counts.old report.old) result (slices constant_tags.new constant_words.new register_tags.new register_words.new program.new data_tags.new data_words.new output.new counts.new report.new) }
{
    let found = image_check::check(image);
    match found {
        Err(e) => refusal::number(e) as u32,
        Ok(n) => run_sound(
            image,
            n,
            schedule,
            constant_tags,
            constant_words,
            register_tags,
            register_words,
            program,
            data_tags,
            data_words,
            output,
            counts,
            report,
        ),
    }
}

// The batch program: its output goes to the front of a buffer that is long enough. The answer is how many bytes were copied.
#[unsafe(no_mangle)]
pub extern "C" fn hep_batch(input: &[u8], output: &mut [u8]) -> usize
    ensures answer { result ≡ bytes_copied (output_of input.now) output.old }
    ensures left { output.new ≡ copied_into (output_of input.now) output.old }
{
    batch::batch(input, output)
}

// ---- filling a module

// A filling that was found: 7 where it has no room.
fn put_filling(f: Filling, filling: &mut [u64]) -> u32
    ensures answer { result ≡ number_answered (listed_answer (length filling.old) (filling_listed f)) }
    ensures left { filling.new ≡ listed_left (listed_answer (length filling.old) (filling_listed f)) filling.old }
{
    let numbers = [f.choice, f.sum, f.tries, f.ceiling];
    put_listed(&numbers, filling)
}

// The first of the best choices of jobs with these register needs, its sum, the tries made and the ceiling go to `filling`: 17, then 18, then 7.
#[unsafe(no_mangle)]
pub extern "C" fn hep_fill(needs: &[u64], tries: u64, filling: &mut [u64]) -> u32
    ensures answer { result ≡ number_answered (filling_answer (length filling.old) (fill_answer needs.now tries)) }
    ensures left { filling.new ≡ listed_left (filling_answer (length filling.old) (fill_answer needs.now tries)) filling.old }
{
    match filling_search::fill(needs, tries) {
        Ok(f) => put_filling(f, filling),
        Err(e) => refusal::number(e) as u32,
    }
}

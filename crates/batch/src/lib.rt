// The batch program as a function: from the bytes of its input to the bytes of its output.
#![tactic(auto)]

ghost use Rattle.std.specs.Prelude.{◌≡◌, ◌≤◌, length, replicate};
ghost use Rattle.run.specs.Run.{run};
ghost use Rattle.image.specs.Image.{decode};
ghost use Rattle.library.specs.Buffers.{fields_in};
ghost use Rattle.library.specs.Calls.{run_refusal};
ghost use Rattle.library.specs.Held.{lent_buffers};
ghost use Rattle.report.specs.Report.{output_read, output_of};
ghost use Rattle.report_text.specs.Texts.{report_room, TextPromise};
ghost use Rattle.batch.specs.Output.{run_text, bytes_copied, copied_into};

use library::Sizes;
use refusal::Refusal;
use report_text::REPORT_ROOM;
use step::ProcessTable;
use window::{Row, TASKS};

// The most bytes of an input, and the places of each memory: no section of so short an image has more values.
pub const MOST_INPUT: usize = 65536;

const MEMORY_ROOM: usize = 8192;

// The text of a run on the state in buffers: its report, or the line of its refusal. The buffers go one by one, as hep's calls take them.
fn run_text(
    rows: [Row; TASKS],
    table: ProcessTable,
    constant_tags: &[u8],
    constant_words: &[u64],
    register_tags: &mut [u8],
    register_words: &mut [u64],
    program: &[u64],
    data_tags: &mut [u8],
    data_words: &mut [u64],
    schedule: &[u8],
    n: Sizes,
    out: &mut [u8],
) -> usize
    ensures { TextPromise (run_text (run_refusal n (lent_buffers rows table constant_tags.now constant_words.now register_tags.old register_words.old program.now data_tags.old data_words.old) schedule.now) (run schedule.now (fields_in n (lent_buffers rows table constant_tags.now constant_words.now register_tags.old register_words.old program.now data_tags.old data_words.old)))) out.old result out.new }
{
    let x = hep::run_owned(
        rows,
        table,
        constant_tags,
        constant_words,
        register_tags,
        register_words,
        program,
        data_tags,
        data_words,
        schedule,
        n,
    );
    let rows_left = x.rows.at;
    let table_left = x.table;
    let result = x.result;
    let own = result.own;
    let answer = result.answer;
    match answer {
        Err(e) => report_text::refusal_text(e, out),
        Ok(counts) => report_text::report_text(rows_left, n.rows, table_left, counts, own, out),
    }
}

// Reads the image, and runs the schedule. No section of so short an image has more than 8,192 values.
fn image_text(schedule: &[u8], image: &[u8], out: &mut [u8]) -> usize
    requires { length image.now ≤ 65536 }
    ensures { TextPromise (output_read schedule.now (decode image.now)) out.old result out.new }
{
    let mut constant_tags = [0; MEMORY_ROOM];
    let mut constant_words = [0; MEMORY_ROOM];
    let mut register_tags = [0; MEMORY_ROOM];
    let mut register_words = [0; MEMORY_ROOM];
    let mut program = [0; MEMORY_ROOM];
    let mut data_tags = [0; MEMORY_ROOM];
    let mut data_words = [0; MEMORY_ROOM];
    let x = hep::read_owned(
        hep::no_rows(),
        hep::no_processes(),
        &mut constant_tags,
        &mut constant_words,
        &mut register_tags,
        &mut register_words,
        &mut program,
        &mut data_tags,
        &mut data_words,
        image,
    );
    let answer = x.answer;
    let rows = x.rows.at;
    let table = x.table;
    match answer {
        Err(e) => report_text::refusal_text(e, out),
        Ok(n) => run_text(
            rows,
            table,
            &constant_tags,
            &constant_words,
            &mut register_tags,
            &mut register_words,
            &program,
            &mut data_tags,
            &mut data_words,
            schedule,
            n,
            out,
        ),
    }
}

// The whole output: the report, or the line of a refusal.
fn output(input: &[u8], out: &mut [u8]) -> usize
    ensures { TextPromise (output_of input.now) out.old result out.new }
{
    if MOST_INPUT < input.len() {
        return report_text::refusal_text(Refusal::InputTooLong, out);
    }
    if input.len() < 2 {
        return report_text::refusal_text(Refusal::InputEnds, out);
    }
    let items = image_bytes::number_at(input, 0, 2) as usize;
    if input.len() - 2 < items {
        return report_text::refusal_text(Refusal::InputEnds, out);
    }
    let end = 2 + items;
    image_text(&input[2..end], &input[end..], out)
}

// A buffer that is long enough for every output.
pub fn output_buffer() -> [u8; REPORT_ROOM]
    ensures { result ≡ replicate report_room 0 }
{
    [0; REPORT_ROOM]
}

// A text goes to the front of a buffer that is long enough. The answer is how many bytes were copied.
fn copy(text: &[u8], out: &mut [u8]) -> usize
    ensures answer { result ≡ bytes_copied text.now out.old }
    ensures left { out.new ≡ copied_into text.now out.old }
{
    if out.len() < text.len() {
        return 0;
    }
    out[..text.len()].copy_from_slice(text);
    text.len()
}

// The output goes to the front of a buffer that is long enough. The answer is how many bytes were copied.
pub fn batch(input: &[u8], out: &mut [u8]) -> usize
    ensures answer { result ≡ bytes_copied (output_of input.now) out.old }
    ensures left { out.new ≡ copied_into (output_of input.now) out.old }
    ensures enough { length (output_of input.now) ≤ report_room }
{
    if REPORT_ROOM <= out.len() {
        return output(input, out);
    }
    let mut text = output_buffer();
    let n = output(input, &mut text);
    copy(&text[..n], out)
}

// Reading and writing of images for programs in other languages, of the memories alone: hep-bench of hep-trials measures them.
#![tactic(auto)]

ghost use Rattle.std.specs.Prelude.{◌≡◌, length};
ghost use Rattle.library.specs.Buffers.{room_of};
ghost use Rattle.library.specs.Calls.{read_answer, read_leaves, write_answer, write_leaves};
ghost use Rattle.library.specs.Empty.{no_rows};
ghost use Rattle.library.specs.Held.{lent_buffers};
ghost use Rattle.library.specs.Promises.{read_answered, write_answered};
ghost use Rattle.image_write.specs.Code.Lengths.{length_written};
ghost use Rattle.benchmark.specs.Calls.{is_read, memories_in, memory_sizes};
ghost use Rattle.window.specs.Limits.{tasks};

use library::{Rows, Sizes};
use refusal::Refusal;
use window::TASKS;

// Seven rows of no task.
fn own_rows() -> Rows
    ensures { result ≡ record { at = no_rows; n = tasks } }
{
    Rows {
        at: library::no_rows(),
        n: TASKS,
    }
}

fn is_read(x: Result<Sizes, Refusal>) -> bool
    ensures { result ≡ is_read x }
{
    match x {
        Err(_) => false,
        Ok(_) => true,
    }
}

// Reads an image into the memories; answers whether it was read. Its rows and processes are dropped.
#[unsafe(no_mangle)]
pub extern "C" fn benchmark_read(
    constant_tags: &mut [u8],
    constant_words: &mut [u64],
    register_tags: &mut [u8],
    register_words: &mut [u64],
    program: &mut [u64],
    data_tags: &mut [u8],
    data_words: &mut [u64],
    image: &[u8],
) -> bool
    ensures value { result ≡ is_read (read_answered (read_answer (room_of (memories_in constant_tags.old constant_words.old register_tags.old register_words.old program.old data_tags.old data_words.old)) image.now)) }
    ensures data_words_after { let left = read_leaves (memories_in constant_tags.old constant_words.old register_tags.old register_words.old program.old data_tags.old data_words.old) image.now in lent_buffers left.rows left.table constant_tags.new constant_words.new register_tags.new register_words.new program.new data_tags.new data_words.new ≡ left }
{
    let left = image_read::read(
        own_rows(),
        library::no_processes(),
        constant_tags,
        constant_words,
        register_tags,
        register_words,
        program,
        data_tags,
        data_words,
        image,
    );
    let answer = left.answer;
    is_read(answer)
}

// Writes the image of a state that has these memories and neither rows nor processes; answers its length, or 0 where it was refused.
#[unsafe(no_mangle)]
pub extern "C" fn benchmark_write(
    constant_tags: &[u8],
    constant_words: &[u64],
    register_tags: &[u8],
    register_words: &[u64],
    program: &[u64],
    data_tags: &[u8],
    data_words: &[u64],
    output: &mut [u8],
) -> usize
    ensures value { result ≡ length_written (write_answered (write_answer (memory_sizes (length constant_words.now) (length register_words.now) (length program.now) (length data_words.now)) (memories_in constant_tags.now constant_words.now register_tags.now register_words.now program.now data_tags.now data_words.now) (length output.old))) }
    ensures output_after { output.new ≡ write_leaves (memory_sizes (length constant_words.now) (length register_words.now) (length program.now) (length data_words.now)) (memories_in constant_tags.now constant_words.now register_tags.now register_words.now program.now data_tags.now data_words.now) output.old }
{
    let n = Sizes {
        rows: 0,
        constants: constant_words.len(),
        registers: register_words.len(),
        program: program.len(),
        data_words: data_words.len(),
    };
    let answer = image_write::write(
        own_rows(),
        library::no_processes(),
        constant_tags,
        constant_words,
        register_tags,
        register_words,
        program,
        data_tags,
        data_words,
        output,
        n,
    );
    image_write::length_written(answer)
}

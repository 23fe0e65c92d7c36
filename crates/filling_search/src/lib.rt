// Which jobs go into a module together: every choice tried in turn.
#![tactic(auto)]

ghost use Rattle.std.specs.Prelude.{◌≡◌, true, ◌^◌, min, ◌≤◌};
ghost use Rattle.window.specs.Limits.{most_registers};
ghost use Rattle.filling.specs.Filling.{most_jobs, need_sound, needs_sound, jobs_sound, better_of, best_of, total, ceiling_of, fill_answer};
ghost use Rattle.filling_search.specs.Code.Steps.{tried_of, pushed};

use filling::{Best, Filling, MOST_CHOSEN, MOST_JOBS};
use refusal::Refusal;
use window::MOST_REGISTERS;

// The registers of a module, in the type of a sum.
const REGISTERS: u64 = MOST_REGISTERS as u64;

// The most jobs of a choice, likewise.
const CHOSEN: u64 = MOST_CHOSEN as u64;

// ---- the jobs

// An even need from 2 to 2,048.
#[tactic(auto, unfolding(filling::specs::Filling::need_sound))]
fn need_sound(n: u64) -> bool
    ensures { result ≡ need_sound n }
{
    n % 2 == 0 && 2 <= n && n <= REGISTERS
}

// Every need is sound.
#[tactic(auto, unfolding(filling::specs::Filling::needs_sound))]
fn needs_sound(needs: &[u64]) -> bool
    ensures { result ≡ needs_sound needs.now }
{
    needs.iter().all(|need| need_sound(*need))
}

// At most 15 jobs, each with a sound need.
#[tactic(auto, unfolding(filling::specs::Filling::jobs_sound))]
fn jobs_sound(needs: &[u64]) -> bool
    ensures { result ≡ jobs_sound needs.now }
{
    needs.len() <= MOST_JOBS && needs_sound(needs)
}

// ---- a choice

// A choice's sum where it keeps the rules.
fn try_choice(choice: u64, needs: &[u64]) -> Option<u64>
    requires { jobs_sound needs.now ≡ true }
    ensures { result ≡ tried_of needs.now choice }
{
    let mut rest = choice;
    let mut count = 0;
    let mut sum = 0;
    // No `if` on the bit: its jump would be guessed wrong half the time.
    for need in needs {
        let bit = rest % 2;
        count += bit;
        sum += bit * *need;
        rest /= 2;
    }
    (count <= CHOSEN && sum <= REGISTERS).then_some(sum)
}

// A choice where it is better than the best before it, else that one.
#[tactic(auto, unfolding(filling::specs::Filling::better_of, crate::specs::Code::Steps::tried_of))]
fn better_of(choice: u64, needs: &[u64], best: Best) -> Best
    requires { jobs_sound needs.now ≡ true }
    ensures { result ≡ better_of needs.now choice best }
{
    match try_choice(choice, needs) {
        Some(sum) if best.sum < sum => Best { choice, sum },
        _ => best,
    }
}

// The first of the best of so many choices, tried from 0 upward.
#[tactic(auto, using(crate::specs::Laws::Choices::best_next), unfolding(filling::specs::Filling::best_of))]
fn best_of(needs: &[u64], tries: u64) -> Best
    requires { jobs_sound needs.now ≡ true }
    ensures { result ≡ best_of needs.now tries }
{
    let mut best = Best { choice: 0, sum: 0 };
    for choice in 0..tries {
        best = better_of(choice, needs, best);
    }
    best
}

// The smaller of the tries given and 2 to the number of jobs.
fn tries_made(jobs: usize, tries: u64) -> u64
    requires { jobs ≤ most_jobs }
    ensures { result ≡ min tries (2 ^ jobs) }
{
    tries.min(1 << jobs)
}

// ---- the ceiling

// A number goes into places in descending order; the smallest is lost.
fn push(n: u64, tops: &mut [u64])
    ensures { tops.new ≡ pushed n tops.old }
{
    let mut carry = n;
    for top in tops.iter_mut() {
        if *top <= carry {
            std::mem::swap(top, &mut carry);
        }
    }
}

// The smaller of 2,048 and a sum.
fn capped(tops: &[u64]) -> u64
    ensures { result ≡ min most_registers (total tops.now) }
{
    let mut sum: u64 = 0;
    for top in tops {
        sum = sum.saturating_add(*top);
    }
    sum.min(REGISTERS)
}

// The smaller of 2,048 and the sum of the seven largest needs.
fn ceiling(needs: &[u64]) -> u64
    ensures { result ≡ ceiling_of needs.now }
{
    let mut tops = [0u64; MOST_CHOSEN];
    for need in needs.iter().rev() {
        push(*need, &mut tops);
    }
    capped(&tops)
}

// ---- the call

// The first of the best choices of jobs with these register needs, of so many tries: 17 for more than 15 jobs or a bad need, then 18 for zero tries.
#[tactic(auto, using(crate::specs::Laws::Jobs::few_jobs), unfolding(filling::specs::Filling::fill_answer, filling::specs::Filling::filling_of, filling::specs::Filling::tries_of))]
pub fn fill(needs: &[u64], tries: u64) -> Result<Filling, Refusal>
    ensures { result ≡ fill_answer needs.now tries }
{
    if !jobs_sound(needs) {
        return Err(Refusal::BadJobs);
    }
    if tries == 0 {
        return Err(Refusal::NoTries);
    }
    let made = tries_made(needs.len(), tries);
    let best = best_of(needs, made);
    Ok(Filling {
        choice: best.choice,
        sum: best.sum,
        tries: made,
        ceiling: ceiling(needs),
    })
}

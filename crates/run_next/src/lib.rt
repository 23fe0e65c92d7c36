// The next attempt of each task, the numbers of a run, and what the loop over its attempts keeps: definitions and laws, no function.
#![tactic(auto)]

// The process that makes the next attempt of a task, among the task's processes.
#[derive(Clone, Copy)]
pub enum NextRole {
    // The only one: it stays where it is where it goes on or waits.
    Alone,
    // One of several in the task's queue.
    Several,
    // It makes the step that follows a try.
    Follows,
    // It heads the SFU queue, and makes a try.
    Tries,
}

// The next attempt of a task: the PT that makes it, and its role.
#[derive(Clone, Copy)]
pub struct Next {
    pub pt: u8,
    pub role: NextRole,
}

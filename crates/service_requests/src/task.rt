//! Requests to devices that are still to be made, under way, or over.
ghost use Rattle.std.specs.Prelude.{◌≡◌, ◌<◌, ◌↔◌, All, IfOk, IfSome, IsTrue, length, map, replicate, slice_get, slice_set, None, Some};
ghost use Rattle.std.specs.List.{position};
ghost use Rattle.service_requests.specs.Tasks.{IsDone, given_up, is_asked, is_done, is_due, is_next, is_open_at, next_place, waits, with_mark};

use std::alloc::{AllocError, Global};
use std::marker::Model;

/// How far a request has come.
#[derive(Clone, Copy)]
pub enum TaskMark {
    /// It is still to be made.
    Due,
    /// It is under way.
    Asked,
    /// It is over, or there is none.
    Done,
}

/// A request to a device, by its number.
#[derive(Clone, Copy)]
pub struct Task {
    pub device: usize,
    pub mark: TaskMark,
    /// The place of the one after which it is made, if any.
    pub after: Option<usize>,
}

impl Task {
    /// Whether it is to the device and under way.
    fn is_asked(&self, device: usize) -> bool
        ensures { result ≡ is_asked device self.now }
    {
        match self.mark {
            TaskMark::Asked => self.device == device,
            _ => false,
        }
    }

    /// Whether it is to the device and still to be made.
    fn is_due(&self, device: usize) -> bool
        ensures { result ≡ is_due device self.now }
    {
        match self.mark {
            TaskMark::Due => self.device == device,
            _ => false,
        }
    }

    /// It is over, where it is to the device.
    fn given_up(self, device: usize) -> Task
        ensures { result ≡ given_up device self }
    {
        if self.device == device {
            Task {
                mark: TaskMark::Done,
                ..self
            }
        } else {
            self
        }
    }

    /// Whether it is over.
    fn is_done(&self) -> bool
        ensures done { IsTrue result ↔ IsDone self.now }
        ensures value { result ≡ is_done self.now }
    {
        match self.mark {
            TaskMark::Done => true,
            _ => false,
        }
    }
}

/// Requests in the order in which they are made.
///
/// A contract sees them as a list.
#[derive(Drop)]
pub struct Tasks {
    items: Vec<Task>,
}

impl Model for Tasks {
    ghost use Rattle.std.specs.Prelude.{List};
    ghost use Rattle.service_requests.specs.declared.task.Task.{Task};

    ghost Value = { List Task };

    ghost view = { λ t. t.items.items };
}

impl Tasks {
    /// So many, none of which is to be made. AllocError where memory is refused.
    pub fn new(alloc: Global, count: usize) -> Result<Tasks, AllocError>
        ensures none { IfOk result (λ tasks. tasks ≡ replicate count (record { device = 0; mark = TaskMark.Done; after = None })) }
        ensures len { IfOk result (λ tasks. length tasks ≡ count) }
    {
        let none = Task {
            device: 0,
            mark: TaskMark::Done,
            after: None,
        };
        let items = vec![in alloc; none; count]?;
        Ok(Tasks { items })
    }

    /// How many there are.
    pub fn len(&self) -> usize
        ensures { result ≡ length self.now }
    {
        self.items.len()
    }

    /// The place of the device's request that is under way.
    pub fn asked(&self, device: usize) -> Option<usize>
        ensures place { result ≡ position (is_asked device) self.now }
        ensures inside { IfSome result (λ i. i < length self.now) }
    {
        place_asked(&self.items, device)
    }

    /// The place of the device's next request: none while one is under way. One waits as long as that after which it is made is
    /// still to be made or under way.
    pub fn next(&self, device: usize) -> Option<usize>
        ensures place { result ≡ next_place device self.now }
        ensures inside { IfSome result (λ i. i < length self.now) }
    {
        match place_asked(&self.items, device) {
            Some(_) => None,
            None => place_next(&self.items, device),
        }
    }

    /// Whether all are over.
    pub fn are_done(&self) -> bool
        ensures { IsTrue result ↔ All IsDone self.now }
    {
        self.items.iter().all(|task| task.is_done())
    }

    /// Marks the one at a place.
    pub fn mark(&mut self, i: usize, mark: TaskMark)
        requires { i < length self.old }
        ensures marks { self.new ≡ with_mark i mark self.old }
        ensures len { length self.new ≡ length self.old }
    {
        let task = self.at(i);
        self.put(i, Task { mark, ..task });
    }

    /// The one at a place.
    pub fn at(&self, i: usize) -> Task
        requires { i < length self.now }
        ensures { slice_get self.now i ≡ Some result }
    {
        self.items[i]
    }

    /// Those to the device are over from now on.
    pub fn give_up(&mut self, device: usize)
        ensures given_up { self.new ≡ map (given_up device) self.old }
        ensures len { length self.new ≡ length self.old }
    {
        give_up_all(&mut self.items, device);
    }

    /// Whether one to the device is still to be made or under way.
    pub fn has_open(&self, device: usize) -> bool {
        self.items
            .iter()
            .any(|task| task.device == device && !task.is_done())
    }

    /// Whether the one at a place is still to be made, or under way.
    pub fn is_open(&self, i: usize) -> bool
        ensures { result ≡ is_open_at self.now i }
    {
        is_open_at(&self.items, i)
    }

    /// Puts one to a place.
    pub fn put(&mut self, i: usize, task: Task)
        requires { i < length self.old }
        ensures set { self.new ≡ slice_set self.old i task }
        ensures len { length self.new ≡ length self.old }
    {
        self.items[i] = task;
    }
}

fn give_up_all(tasks: &mut [Task], device: usize)
    ensures given_up { tasks.new ≡ map (given_up device) tasks.old }
    ensures len { length tasks.new ≡ length tasks.old }
{
    for i in 0..tasks.len() {
        tasks[i] = tasks[i].given_up(device);
    }
}

fn place_asked(tasks: &[Task], device: usize) -> Option<usize>
    ensures place { result ≡ position (is_asked device) tasks.now }
    ensures inside { IfSome result (λ i. i < length tasks.now) }
{
    tasks.iter().position(|task| task.is_asked(device))
}

fn place_next(tasks: &[Task], device: usize) -> Option<usize>
    ensures place { result ≡ position (is_next device tasks.now) tasks.now }
    ensures inside { IfSome result (λ i. i < length tasks.now) }
{
    tasks.iter().position(|task| is_next(tasks, device, task))
}

fn is_next(tasks: &[Task], device: usize, task: &Task) -> bool
    ensures { result ≡ is_next device tasks.now task.now }
{
    task.is_due(device) && !waits(tasks, task)
}

/// Whether that after which one is made is still to be made or under way.
fn waits(tasks: &[Task], task: &Task) -> bool
    ensures { result ≡ waits tasks.now task.now }
{
    match task.after {
        Some(i) => is_open_at(tasks, i),
        None => false,
    }
}

fn is_open_at(tasks: &[Task], i: usize) -> bool
    ensures { result ≡ is_open_at tasks.now i }
{
    match tasks.get(i) {
        Some(task) => !task.is_done(),
        None => false,
    }
}

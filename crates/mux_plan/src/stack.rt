//! The stack of a walk.
ghost use Rattle.std.specs.Prelude.{◌≡◌, ◌<◌, true, false, List, [], ◌∷◌, length, reverse, drop, IfSome, IfNone};
ghost use Rattle.mux_plan.specs.Rooms.{STACK_ROOM};

use i2c_base::Row;
use std::marker::Model;

/// How many tasks a stack has room for.
pub const STACK_ROOM: usize = 32;

/// The tasks of a walk. A contract sees the list of them, the one on the top first.
#[derive(Drop)]
pub struct Stack<T> {
    items: Row<T, STACK_ROOM>,
}

impl<T> Model for Stack<T> {
    ghost use Rattle.std.specs.Prelude.{List, reverse};

    ghost Value = { List T };

    ghost view = { λ s. reverse s.items };
}

impl<T: Copy + Default> Stack<T> {
    pub fn new() -> Self
        ensures { result ≡ [] }
    {
        Stack { items: Row::new() }
    }

    /// Leaves this task alone.
    pub fn restart(&mut self, task: T)
        ensures { self.new ≡ task ∷ [] }
    {
        self.items.clear();
        self.items.push(task);
    }

    /// Puts a task on the top.
    pub fn push(&mut self, task: T)
        requires { length self.old < STACK_ROOM }
        ensures { self.new ≡ task ∷ self.old }
    {
        self.items.push(task);
    }

    /// Takes the task on the top off, which isn't looked at.
    pub fn drop_top(&mut self)
        ensures { self.new ≡ drop 1 self.old }
    {
        self.items.drop_last();
    }

    /// The tasks, the one on the top last.
    pub fn items(&self) -> &[T]
        ensures { reverse result.now ≡ self.now }
    {
        self.items.as_slice()
    }

    /// The task on the top, and those below it, the lowest first.
    pub fn split(&self) -> Option<(&T, &[T])>
        ensures some { IfSome result (λ p. self.now ≡ p.0.now ∷ reverse p.1.now) }
        ensures none { IfNone result (self.now ≡ []) }
    {
        self.items.as_slice().split_last()
    }

    /// No task is left.
    pub fn is_empty(&self) -> bool
        ensures empty { result ≡ true → self.now ≡ [] }
        ensures some { result ≡ false → 0 < length self.now }
    {
        self.items.as_slice().is_empty()
    }

    /// The task on the top, if there is one.
    pub fn peek(&self) -> Option<&T>
        ensures some { IfSome result (λ task. self.now ≡ task.now ∷ drop 1 self.now) }
        ensures none { IfNone result (self.now ≡ []) }
    {
        self.items.as_slice().last()
    }
}

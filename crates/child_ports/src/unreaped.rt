// Children that hadn't ended when their ports were let go.
use relay_model::{ChildEnd, NoMemory};
use std::alloc::Global;
use std::cell::Cell;
use std::process::{Child, OpenProcess};
use std::rc::Rc;

/// Asks for the ends of the children whose ports are gone, so that none stays a zombie (wait(2)). They are asked whenever
/// a child is started, its output ends or its port is let go. One that outlives the program is left alone.
#[derive(Drop)]
pub struct UnreapedChildren<P: OpenProcess + Drop> {
    alloc: Global,
    left: Rc<Cell<Vec<Child<P>>>, Global>,
}

impl<P: OpenProcess + Drop> UnreapedChildren<P> {
    /// Without children.
    pub fn new(alloc: Global) -> Result<UnreapedChildren<P>, NoMemory> {
        Ok(UnreapedChildren {
            alloc,
            left: Rc::new(alloc, Cell::new(Vec::new(alloc)))?,
        })
    }

    /// Room for the ward of a child that isn't started yet.
    pub fn empty_ward(&self) -> Result<EmptyWard<P>, NoMemory> {
        Ok(EmptyWard {
            alloc: self.alloc,
            left: self.left.clone()?,
        })
    }

    /// Asks each child once, without waiting, and forgets those that have ended. It takes no memory.
    pub fn ask_all(&self) {
        ask_each(self.alloc, &self.left);
    }
}

/// Asks each of these, and keeps those that go on.
fn ask_each<P: OpenProcess + Drop>(alloc: Global, left: &Cell<Vec<Child<P>>>) {
    let mut children = left.replace(Vec::new(alloc));
    children.retain_mut(|child| is_running(child));
    left.set(children);
}

/// How the child stands. One that can't be asked counts as running.
fn end_of<P: OpenProcess>(child: &mut Child<P>) -> ChildEnd {
    match child.try_wait() {
        Ok(Some(status)) => match status.code() {
            Some(code) => ChildEnd::Ended(code),
            None => ChildEnd::Killed,
        },
        Ok(None) | Err(_) => ChildEnd::Running,
    }
}

fn is_running<P: OpenProcess>(child: &mut Child<P>) -> bool {
    end_of(child) == ChildEnd::Running
}

/// Room for a ward, which is had before its child, so that no started child is lost for want of memory.
#[derive(Drop)]
pub struct EmptyWard<P: OpenProcess + Drop> {
    alloc: Global,
    left: Rc<Cell<Vec<Child<P>>>, Global>,
}

impl<P: OpenProcess + Drop> EmptyWard<P> {
    /// The ward of a child, which goes to the unreaped where it hasn't ended when its ward is let go.
    pub fn with(self, child: Child<P>) -> Ward<P> {
        let EmptyWard { alloc, left } = self;
        Ward {
            alloc,
            child: Some(child),
            left,
        }
    }
}

/// A child and where it goes if it outlives its port.
pub struct Ward<P: OpenProcess + Drop> {
    alloc: Global,
    child: Option<Child<P>>,
    left: Rc<Cell<Vec<Child<P>>>, Global>,
}

impl<P: OpenProcess + Drop> Ward<P> {
    /// Asks once, without waiting, how the child stands. One that was seen to have ended isn't asked again.
    pub fn ask(&mut self) -> ChildEnd {
        let Some(child) = &mut self.child else {
            return ChildEnd::Running;
        };
        end_of(child)
    }

    /// Asks the child, and those that were left before.
    pub fn ask_all(&mut self) {
        let _ = self.ask();
        ask_each(self.alloc, &self.left);
    }
}

impl<P: OpenProcess + Drop> Drop for Ward<P> {
    /// A child that hasn't ended goes to the unreaped, whose children are asked. Where there is no memory for it, it is left
    /// alone.
    fn drop(self) {
        let Ward { alloc, child, left } = self;
        ask_each(alloc, &left);
        let Some(mut child) = child else {
            return;
        };
        if !is_running(&mut child) {
            return;
        }
        let mut children = left.replace(Vec::new(alloc));
        let _ = children.push(child);
        left.set(children);
    }
}

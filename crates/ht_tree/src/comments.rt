ghost use Rattle.std.specs.Prelude.{◌≡◌, [], ◌∷◌, ◌++◌, length, option_map, slice_get, IfOk, OnErr, OnOk};

use ht_base::{Memory, Moment, Person, Txt};
use std::alloc::Global;
use std::marker::Model;
use std::sync::Arc;

/// A comment on a task.
#[derive(Drop)]
pub struct Comment {
    pub moment: Moment,
    pub person: Person,
    /// 1 to `LONGEST_TEXT` bytes.
    pub text: Txt,
}

/// The comments on a task, in order. A contract sees it as their list. A comment never changes, so the
/// copies of a row share it.
#[derive(Drop)]
pub struct Comments {
    items: Vec<Arc<Comment, Global>>,
}

impl Model for Comments {
    ghost use Rattle.std.specs.Prelude.{List, map};
    ghost use Rattle.std.specs.Arc.{arc_value};
    ghost use Rattle.ht_tree.specs.declared.comments.Comment.{Comment};

    ghost Value = { List Comment };

    ghost view = { λ c. map arc_value c.items.items };
}

impl Comments {
    /// No comments.
    pub fn new(alloc: Global) -> Comments
        ensures { result ≡ [] }
    {
        Comments {
            items: Vec::new(alloc),
        }
    }

    pub fn copy(&self, alloc: Global) -> Result<Comments, Memory>
        ensures { IfOk result (λ c. c ≡ self.now) }
    {
        let mut items = Vec::with_capacity(alloc, self.items.len())?;
        for comment in &self.items {
            items.push(Arc::try_clone(comment)?)?;
        }
        Ok(Comments { items })
    }

    /// How many there are.
    pub fn count(&self) -> usize
        ensures { result ≡ length self.now }
    {
        self.items.len()
    }

    /// The comment at a place, from 0.
    pub fn get(&self, place: usize) -> Option<&Comment>
        ensures { option_map (λ c. c.now) result ≡ slice_get self.now place }
    {
        let comment = self.items.get(place)?;
        Some(&**comment)
    }

    /// Puts a comment behind the others.
    pub fn push(&mut self, alloc: Global, comment: Comment) -> Result<(), Memory>
        ensures ok { OnOk result (self.new ≡ self.old ++ comment ∷ []) }
        ensures err { OnErr result (self.new ≡ self.old) }
    {
        let comment = Arc::new(alloc, comment)?;
        self.items.push(comment)?;
        Ok(())
    }
}

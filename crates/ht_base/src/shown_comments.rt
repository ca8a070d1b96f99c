ghost use Rattle.std.specs.Prelude.{◌≡◌, [], ◌∷◌, ◌++◌, IfOk, OnOk, OnErr};

use crate::{Memory, Moment, Name, Txt};
use std::alloc::Global;
use std::marker::Model;

/// A comment on a task, as its sheet shows it.
#[derive(Drop)]
pub struct ShownComment {
    pub moment: Moment,
    pub person: Name,
    /// 1 to `LONGEST_TEXT` bytes.
    pub text: Txt,
}

impl ShownComment {
    pub fn copy(&self, alloc: Global) -> Result<ShownComment, Memory>
        ensures { IfOk result (λ c. c ≡ self.now) }
    {
        Ok(ShownComment {
            moment: self.moment,
            person: self.person,
            text: self.text.copy(alloc)?,
        })
    }
}

/// The comments on a task in the order in which they were made. A contract sees them as their list.
#[derive(Drop)]
pub struct ShownComments {
    items: Vec<ShownComment>,
}

impl Model for ShownComments {
    ghost use Rattle.std.specs.Prelude.{List};
    ghost use Rattle.ht_base.specs.declared.shown_comments.ShownComment.{ShownComment};

    ghost Value = { List ShownComment };

    ghost view = { λ c. c.items.items };
}

impl ShownComments {
    /// No comments.
    pub fn new(alloc: Global) -> ShownComments
        ensures { result ≡ [] }
    {
        ShownComments {
            items: Vec::new(alloc),
        }
    }

    pub fn copy(&self, alloc: Global) -> Result<ShownComments, Memory>
        ensures { IfOk result (λ c. c ≡ self.now) }
    {
        let mut items = Vec::with_capacity(alloc, self.items.len())?;
        for comment in &self.items {
            items.push(comment.copy(alloc)?)?;
        }
        Ok(ShownComments { items })
    }

    pub fn as_slice(&self) -> &[ShownComment]
        ensures { result.now ≡ self.now }
    {
        &self.items
    }

    /// Puts a comment behind the others.
    pub fn push(&mut self, comment: ShownComment) -> Result<(), Memory>
        ensures ok { OnOk result (self.new ≡ self.old ++ comment ∷ []) }
        ensures err { OnErr result (self.new ≡ self.old) }
    {
        self.items.push(comment)?;
        Ok(())
    }
}

//! What the writer tells of its publications.

use crate::mark::Mark;
use crate::rule::Naming;
use std::marker::{Model, PhantomData};

/// All changes that were published when it was made. It keeps no list: contracts see it as these changes.
#[derive(Drop)]
pub struct RouteNote<J: Naming> {
    pub(crate) mark: Mark,
    pub(crate) of: PhantomData<J>,
}

impl<J: Naming> Model for RouteNote<J> {
    ghost use Rattle.std.specs.Prelude.{◌≡◌, List};
    ghost use Rattle.members.specs.declared.order.Change.{Change};
    ghost use Rattle.routes.specs.Publications.{changes_of};

    ghost Value = { List Change };

    ghost view = { λ n. changes_of n.mark.seen.log };

    ghost invariant = { λ n. n.mark.seen.book ≡ J.book };
}

impl<J: Naming> RouteNote<J> {
    ghost use Rattle.std.specs.Prelude.{◌≡◌};
    ghost use Rattle.routes.specs.Publications.{changes_of};

    /// The note of all that the mark knows.
    pub(crate) fn of(mark: &Mark) -> RouteNote<J>
        requires { mark.now.seen.book ≡ J.book }
        ensures { result ≡ changes_of mark.now.seen.log }
    {
        RouteNote {
            mark: mark.again(),
            of: PhantomData,
        }
    }
}

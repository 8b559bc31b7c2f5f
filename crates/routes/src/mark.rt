//! How far the publications are known: their number, and a token that stands for them.

ghost use Rattle.std.specs.Prelude.{◌≡◌, ◌<◌, ◌≤◌, ◌^◌, ◌++◌, ◌∷◌, ◌↔◌, [], length, IsTrue, MatchBool, IfSome};
ghost use mathlib.Core.List.{IsPrefix};
ghost use Rattle.routes.specs.Publications.{head_of, MayPublish};

use logbook::{Gain, Offer, Pen, Plain, Play, Rule, Seen, Word};
use members::Change;

/// The rule of the book of publications.
pub struct Law;

impl Rule<[Change; 0], u64> for Law {
    ghost use Rattle.std.specs.Prelude.{[]};
    ghost use base.Fml.{ftrue};
    ghost use Rattle.routes.specs.Publications.{IsCounted};

    ghost holds = { λ cells log. IsCounted cells log };

    ghost first = { [] };

    ghost hinted = { λ n log. Unit {0} };

    ghost shows = { λ log. [] };

    ghost keeps = { λ names log. ftrue };

    ghost moves = { λ ask before after answer. Unit {0} };
}

/// Nobody trades anything for a publication.
pub struct Nothing;

impl Gain<[Change; 0], u64> for Nothing {
    ghost use base.Fml.{ftrue};

    ghost after = { λ names about answer. ftrue };
}

/// Of a step that publishes nothing nobody asks anything.
impl Plain<(), [Change; 0], u64> for Nothing {
    ghost use Rattle.std.specs.Prelude.{None, []};

    ghost ask = { λ _. [] };

    ghost state = { λ _. None };
}

/// A step that makes the right to publish, if there is none.
pub struct Open;

impl Play<[Change; 0], u64> for Open {
    ghost use Rattle.routes.specs.Publications.{Opens};

    ghost then = { Opens };
}

/// A step that changes nothing, by who has the right to publish.
pub struct Look;

impl Play<[Change; 0], u64> for Look {
    ghost use Rattle.routes.specs.Publications.{SeesAll};

    ghost then = { SeesAll };
}

/// A step that puts a publication after all others, and uses the right to publish up.
pub struct Publish;

impl Play<[Change; 0], u64> for Publish {
    ghost use Rattle.routes.specs.Publications.{Publishes};

    ghost then = { Publishes };
}

impl Plain<Vec<Change>, [Change; 0], u64> for Publish {
    ghost use Rattle.std.specs.Prelude.{None};

    ghost ask = { λ changes. changes.items };

    ghost state = { λ changes. None };
}

/// A beginning of the book of publications. It keeps their number alone; what they are is known to
/// contracts.
#[derive(Drop)]
pub struct Mark {
    pub(crate) count: u64,
    pub(crate) seen: Seen<[Change; 0], u64, Law>,
    ghost counted: { count ≡ length seen.log },
}

/// The count that the book never goes beyond.
const MOST: u64 = 1 << 62;

impl Mark {
    /// The mark of no publication.
    pub(crate) fn first(seen: Seen<[Change; 0], u64, Law>) -> Mark
        requires { seen.log ≡ [] }
        ensures { result.seen ≡ seen }
    {
        Mark { count: 0, seen }
    }

    /// A copy.
    pub(crate) fn again(&self) -> Mark
        ensures { result.seen ≡ self.now.seen }
    {
        Mark {
            count: self.count,
            seen: self.seen.again(),
        }
    }

    /// Whether this one has no more publications than the other. Then the other begins with it.
    pub(crate) fn begins(&self, other: &Mark) -> bool
        requires { other.now.seen.book ≡ self.now.seen.book }
        ensures beginning { MatchBool result
            (IsPrefix self.now.seen.log other.now.seen.log)
            (IsPrefix other.now.seen.log self.now.seen.log) }
        ensures begins { IsPrefix self.now.seen.log other.now.seen.log → IsTrue result }
    {
        let mut both = self.seen.again();
        both.learn(&other.seen);
        self.count <= other.count
    }

    /// Whether this one has as many publications as the other. Then they are the same.
    pub(crate) fn is(&self, other: &Mark) -> bool
        requires { other.now.seen.book ≡ self.now.seen.book }
        ensures { IsTrue result ↔ (self.now.seen.log ≡ other.now.seen.log) }
    {
        let mut both = self.seen.again();
        both.learn(&other.seen);
        self.count == other.count
    }

    /// Whether there are 2^62 publications, which is as many as the book may have.
    pub(crate) fn is_full(&self) -> bool
        ensures { IsTrue result ↔ (2 ^ 62 ≤ length self.now.seen.log) }
    {
        self.count >= MOST
    }

    /// The right to the publication that follows this mark, if nobody has it and the book isn't full.
    pub(crate) fn next_right(&self, head: &Word<[Change; 0], u64, Law>) -> Option<Pen>
        requires { head.now ≡ head_of self.now.seen.book }
        ensures { IfSome result (MayPublish self.now.seen.book self.now.seen.log) }
    {
        if self.is_full() {
            return None;
        }
        let mut seen = self.seen.again();
        let mut offer: Offer<[Change; 0], u64, Law, Nothing> = seen.plain::<Nothing, (), Nothing>(
            &(),
        );
        let mut right = seen.no_pen();
        let count = 2 * self.count;
        let found = head.compare_exchange::<Open, Nothing>(
            count,
            count + 1,
            &mut seen,
            &mut offer,
            &mut right,
        );
        if found != count {
            return None;
        }
        let _word: Word<[Change; 0], u64, Law> = Word::tracked(0, &mut right);
        Some(right)
    }

    /// One publication more, by the right to it, which is used up.
    pub(crate) fn publish(
        &self,
        head: &Word<[Change; 0], u64, Law>,
        right: &mut Pen,
        changes: &Vec<Change>,
    ) -> Mark
        requires head { head.now ≡ head_of self.now.seen.book }
        requires right { MayPublish self.now.seen.book self.now.seen.log right.old }
        requires room { length self.now.seen.log < 2 ^ 62 }
        ensures book { result.seen.book ≡ self.now.seen.book }
        ensures log { result.seen.log ≡ self.now.seen.log ++ changes.now.items ∷ [] }
    {
        let mut seen = self.seen.again();
        let mut offer: Offer<[Change; 0], u64, Law, Nothing> = seen.plain::<
            Nothing,
            Vec<Change>,
            Publish,
        >(changes);
        let count = 2 * self.count + 1;
        let _found = head.compare_exchange::<Publish, Nothing>(
            count,
            count + 1,
            &mut seen,
            &mut offer,
            right,
        );
        Mark {
            count: self.count + 1,
            seen,
        }
    }

    /// Whether the other mark has all publications, too. It has a beginning of them: nobody publishes while the right to the one that
    /// follows this mark is held.
    pub(crate) fn is_all_of(
        &self,
        head: &Word<[Change; 0], u64, Law>,
        right: &mut Pen,
        other: &Mark,
    ) -> bool
        requires head { head.now ≡ head_of self.now.seen.book }
        requires right { MayPublish self.now.seen.book self.now.seen.log right.old }
        requires book { other.now.seen.book ≡ self.now.seen.book }
        ensures right { MayPublish self.now.seen.book self.now.seen.log right.new }
        ensures beginning { IsPrefix other.now.seen.log self.now.seen.log }
        ensures all { IsTrue result ↔ (other.now.seen.log ≡ self.now.seen.log) }
    {
        let mut seen = self.seen.again();
        seen.learn(&other.seen);
        let mut offer: Offer<[Change; 0], u64, Law, Nothing> = seen.plain::<Nothing, (), Nothing>(
            &(),
        );
        let _found = head.compare_exchange::<Look, Nothing>(0, 0, &mut seen, &mut offer, right);
        other.count == self.count
    }
}

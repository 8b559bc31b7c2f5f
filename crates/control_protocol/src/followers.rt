//! Peers that follow what happens: each is told of it in lines as it happens, and none is waited for.

ghost use Rattle.std.specs.Prelude.{◌≡◌, map};
ghost use Rattle.control_protocol.specs.Followers.{follower_of, told, told_all};

use crate::outbox::Outbox;
use crate::patience::is_let_go;
use std::alloc::{AllocError, Global};
use std::io::{self, ErrorKind, Read, Write};
use std::marker::Model;

/// So many follow at most.
pub const MAX_FOLLOWERS: usize = 8;

/// A peer that follows what happens.
#[derive(Drop)]
struct Follower<S: Drop> {
    stream: S,
    outbox: Outbox,
    /// Whether it wasn't told yet what is so already.
    is_new: bool,
    /// The moment at which it last took something, or had all.
    since_ms: u64,
}

impl<S: Read + Write + Drop> Follower<S> {
    ghost use Rattle.std.specs.Prelude.{◌≡◌, IfOk};
    ghost use Rattle.control_protocol.specs.Followers.{follower_of, new_follower, told, told_all};

    /// One that follows from this moment on. It is told first that its request is done. Refused for want of memory alone.
    fn new(alloc: Global, stream: S, moment: u64) -> Result<Follower<S>, AllocError>
        ensures { IfOk result (λ f. follower_of f.outbox f.is_new ≡ new_follower) }
    {
        let mut outbox = Outbox::new(alloc)?;
        outbox.put("ok\n");
        Ok(Follower {
            stream,
            outbox,
            is_new: true,
            since_ms: moment,
        })
    }

    /// It is told the news; the first time, all that is so.
    fn tell(&mut self, news: &str, whole: &str)
        ensures { follower_of self.new.outbox self.new.is_new
            ≡ told news.now whole.now (follower_of self.old.outbox self.old.is_new) }
    {
        if self.is_new {
            self.outbox.put(whole);
        } else {
            self.outbox.put(news);
        }
        self.is_new = false;
    }

    /// It is told this, whatever it was told before.
    fn tell_this(&mut self, line: &str)
        ensures { follower_of self.new.outbox self.new.is_new
            ≡ told_all line.now (follower_of self.old.outbox self.old.is_new) }
    {
        self.outbox.put(line);
    }

    /// Writes as much of what waits as it takes at this moment. Says whether it goes on following.
    fn goes_on(&mut self, moment: u64) -> bool {
        if !self.is_there() {
            return false;
        }
        let rest = self.outbox.rest();
        if rest.is_empty() {
            self.since_ms = moment;
            return !self.outbox.is_over();
        }
        match self.stream.write(rest) {
            Ok(0) => false,
            Ok(count) => {
                self.outbox.take(count);
                self.since_ms = moment;
                true
            }
            Err(error) if is_pause(&error) => !is_let_go(true, false, self.since_ms, moment),
            Err(_) => false,
        }
    }

    /// Whether it is there. What it says is passed over.
    fn is_there(&mut self) -> bool {
        let mut said = [0; 64];
        match self.stream.read(&mut said) {
            Ok(0) => false,
            Ok(_) => true,
            Err(error) => is_pause(&error),
        }
    }
}

/// Whether nothing can be read or written for now.
fn is_pause(error: &io::Error) -> bool {
    matches!(error.kind(), ErrorKind::WouldBlock | ErrorKind::Interrupted)
}

/// The peers that follow what happens. Contracts see of each what waits for it, and whether it wasn't told yet what is so already.
#[derive(Drop)]
pub struct Followers<S: Drop> {
    alloc: Global,
    followers: Vec<Follower<S>>,
}

impl<S: Drop> Model for Followers<S> {
    ghost use Rattle.std.specs.Prelude.{◌≤◌, List, map, vec_len};
    ghost use Rattle.control_protocol.specs.Followers.{FollowerState, follower_of};
    ghost use Rattle.control_protocol.specs.declared.followers.TheConstants.{MAX_FOLLOWERS};

    ghost Value = { List FollowerState };

    ghost view = { λ f. map (λ follower. follower_of follower.outbox follower.is_new) f.followers.items };

    ghost invariant = { λ f. vec_len f.followers ≤ MAX_FOLLOWERS };
}

impl<S: Read + Write + Drop> Followers<S> {
    ghost use Rattle.std.specs.Prelude.{◌≡◌, ◌≤◌, ◌==◌, [], length, map, nat_lt};
    ghost use Rattle.control_protocol.specs.Followers.{TakesFollower, told, told_all};
    ghost use Rattle.control_protocol.specs.declared.followers.TheConstants.{MAX_FOLLOWERS};

    /// Nobody.
    pub fn new(alloc: Global) -> Followers<S>
        ensures { result ≡ [] }
    {
        Followers {
            alloc,
            followers: Vec::new(alloc),
        }
    }

    /// Whether nobody follows.
    pub fn is_empty(&self) -> bool
        ensures { result ≡ (length self.now == 0) }
    {
        self.followers.is_empty()
    }

    /// Whether one more may follow.
    pub fn may_follow(&self) -> bool
        ensures { result ≡ nat_lt (length self.now) MAX_FOLLOWERS }
    {
        self.followers.len() < MAX_FOLLOWERS
    }

    /// One follows from this moment on, after the others. It is let go if as many follow as may, and for want of memory.
    pub fn admit(&mut self, stream: S, moment: u64)
        ensures { TakesFollower self.old self.new }
    {
        if !self.may_follow() {
            return;
        }
        if let Ok(follower) = Follower::new(self.alloc, stream, moment) {
            let _ = self.followers.push(follower);
        }
    }

    /// Each is told the news, but who is new all that is so. Whoever is too slow for that is told so, and nothing more.
    pub fn tell(&mut self, news: &str, whole: &str)
        ensures { self.new ≡ map (told news.now whole.now) self.old }
    {
        tell_each(self.followers.as_mut_slice(), news, whole);
    }

    /// Each is told this, who is new, too.
    pub fn tell_all(&mut self, line: &str)
        ensures { self.new ≡ map (told_all line.now) self.old }
    {
        tell_each_this(self.followers.as_mut_slice(), line);
    }

    /// Writes to each as much as it takes at this moment. Lets go of those who are gone, of those who are too slow once they took their last
    /// line, and of those who took nothing for long.
    pub fn look(&mut self, moment: u64)
        ensures { length self.new ≤ length self.old }
    {
        self.followers
            .retain_mut(|follower| follower.goes_on(moment));
    }
}

/// Each of these is told the news, but who is new all that is so.
fn tell_each<S: Read + Write + Drop>(followers: &mut [Follower<S>], news: &str, whole: &str)
    ensures { map (λ follower. follower_of follower.outbox follower.is_new) followers.new
        ≡ map (told news.now whole.now)
        (map (λ follower. follower_of follower.outbox follower.is_new) followers.old) }
{
    for follower in followers.iter_mut() {
        follower.tell(news, whole);
    }
}

/// Each of these is told this.
fn tell_each_this<S: Read + Write + Drop>(followers: &mut [Follower<S>], line: &str)
    ensures { map (λ follower. follower_of follower.outbox follower.is_new) followers.new
        ≡ map (told_all line.now)
        (map (λ follower. follower_of follower.outbox follower.is_new) followers.old) }
{
    for follower in followers.iter_mut() {
        follower.tell_this(line);
    }
}

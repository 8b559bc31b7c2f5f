//! A call of a publisher's desk, by the ingress or a worker.

ghost use Rattle.std.specs.Prelude.{◌≡◌, ◌<◌, ◌++◌, slice_get, option_map, vec_len, vec_capacity};
ghost use Rattle.desk.specs.Call.{HasStay};
ghost use Rattle.core_steps.specs.Asking.{Replied, Asked};
ghost use Rattle.desk_calls.specs.Notification.{pending_with};
ghost use Rattle.core_steps.specs.Rule.{refusals};

use desk::{Answer, Desk, Effect, HistoryFull, Recorded};
use desk_calls::{Notification, Question, notification_of, waiting};
use events::{DeskRefusal, Out, Refusal};

/// Says why the call wasn't done, where it wasn't.
fn refuse(answer: &Answer, outs: &mut Vec<Out>)
    requires { vec_len outs.old < vec_capacity outs.old }
    ensures { outs.new.items ≡ outs.old.items ++ refusals answer.now }
{
    match answer {
        Answer::Done { .. } => {}
        Answer::NotPresent(_) => outs.push_reserved(Out::Refused(Refusal::Desk(
            DeskRefusal::NotPresent,
        ))),
        Answer::AlreadyPresent(_) => outs.push_reserved(Out::Refused(Refusal::Desk(
            DeskRefusal::AlreadyPresent,
        ))),
        Answer::Full => outs.push_reserved(Out::Refused(Refusal::Desk(DeskRefusal::Full))),
    }
}

/// Asks the publisher's desk, where it is there, with room for one refusal; answers what is to be told of it, and says in
/// `effect` what changed.
pub(crate) fn ask(
    desks: &mut [Desk],
    question: &Question,
    effect: &mut Effect,
    outs: &mut Vec<Out>,
) -> Option<Notification>
    requires stay { HasStay question.now.call }
    requires room { vec_len outs.old < vec_capacity outs.old }
    ensures { Asked question.now (slice_get desks.old question.now.publisher) desks.old desks.new
        (option_map (pending_with effect.new) result) outs.old.items outs.new.items }
{
    let at = usize::from(question.publisher);
    if at < desks.len() {
        ask_desk(&mut desks[at], question, effect, outs)
    } else {
        None
    }
}

/// Asks this desk, the publisher's.
fn ask_desk(
    desk: &mut Desk,
    question: &Question,
    effect: &mut Effect,
    outs: &mut Vec<Out>,
) -> Option<Notification>
    requires stay { HasStay question.now.call }
    requires room { vec_len outs.old < vec_capacity outs.old }
    ensures { Replied question.now desk.old desk.new
        (option_map (pending_with effect.new) result) outs.old.items outs.new.items }
{
    match desk.call(&question.call, effect) {
        Ok(Recorded { answer, .. }) => {
            refuse(&answer, outs);
            let notification = notification_of(question.publisher, question.asked_by, &answer);
            waiting(notification, effect)
        }
        Err(HistoryFull) => {
            outs.push_reserved(Out::Refused(Refusal::Desk(DeskRefusal::HistoryFull)));
            None
        }
    }
}

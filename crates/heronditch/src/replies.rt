// What the calls answer, as replies of numbers, where an answer has more than one number.
ghost use Rattle.std.specs.Prelude.{◌≡◌};
ghost use Rattle.call_check.specs.Call.{check_reply};
ghost use Rattle.call_match.specs.Call.{reply_of};
ghost use Rattle.place.specs.Outcome.{place_reply};
ghost use Rattle.call_merge.specs.Call.{merge_reply};
ghost use Rattle.report_answer.specs.Call.{report_reply};
ghost use Rattle.heronditch_reply.specs.Replies.{slots, counted, pieced};

use file_format::Refusal;
use heronditch_reply::{
    Counted, HostReply, Piece, accepted, put_piece, refused, refused_piece, refused_with,
    with_counts,
};
use merge_file::Merged;
use place::NoPlace;
use report_pieces::PutPiece;
use table::Counts;

pub fn of_check(answer: Result<bool, Refusal>) -> HostReply
    ensures { result ≡ slots (check_reply answer) }
{
    match answer {
        Ok(true) => accepted(1, 0),
        Ok(false) => accepted(0, 0),
        Err(x) => refused(x),
    }
}

pub fn of_match(answer: Result<Counts, Refusal>) -> Counted
    ensures { result ≡ counted (reply_of answer) }
{
    match answer {
        Ok(k) => with_counts(0, 0, k),
        Err(x) => refused_with(
            x,
            Counts {
                started: 0,
                kept: 0,
                struck: 0,
                rounds: 0,
            },
        ),
    }
}

pub fn of_place(answer: Result<Counts, NoPlace>) -> Counted
    ensures { result ≡ counted (place_reply answer) }
{
    match answer {
        Ok(k) => with_counts(0, 0, k),
        Err(none) => refused_with(none.refusal, none.counts),
    }
}

pub fn of_merge(answer: Result<Merged, Refusal>) -> HostReply
    ensures { result ≡ slots (merge_reply answer) }
{
    match answer {
        Ok(made) => accepted(made.classes, made.size),
        Err(x) => refused(x),
    }
}

pub fn of_report(answer: Result<PutPiece, Refusal>) -> Piece
    ensures { result ≡ pieced (report_reply answer) }
{
    match answer {
        Ok(part) => put_piece(part.next, part.found, part.size),
        Err(x) => refused_piece(x),
    }
}

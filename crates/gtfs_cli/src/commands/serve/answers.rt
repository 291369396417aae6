//! What answers a line that is heard while the program serves.
ghost use Rattle.std.specs.Prelude.{◌≡◌, option_map, IfErr, IfOk};
ghost use Rattle.gtfs_rows.specs.RowsInMemory.{content_of_parts};
ghost use Rattle.gtfs_board.specs.BoardPage.{IsCutShort, IsPage};
ghost use Rattle.gtfs_cli.specs.ServeAnswers.{AreFirstLines, IsBeginning, IsCut, IsLinePart, IsLineText, IsPrinted, IsQuestionCause, IsSomeText, IsTextPart, line_for};
ghost use Rattle.gtfs_cli.specs.LentBoardRequests.{board_request_of, stop_request_of};
ghost use Rattle.gtfs_cli.specs.BoardCommand.{ListsBoard};
ghost use Rattle.gtfs_cli.specs.LentServeQuestions.{question_of, IsSoundQuestion};
ghost use Rattle.gtfs_cli.specs.BoardsCommand.{IsRequestText, IsBoardCause};
ghost use Rattle.gtfs_cli.specs.BoardOptions.{IsSound};
ghost use Rattle.gtfs_cli.specs.SentText.{PrintsText};

use crate::commands::board::print_page;
use crate::commands::boards::{StopRequest, open_request};
use crate::commands::refusal::Refusal;
use crate::commands::send::send;
use crate::commands::serve::questions::{Question, read_question};
use crate::commands::timetable::print_sheets;
use crate::devices_seen::OutSeen;
use gtfs_board::StopIndex;
use gtfs_conversation::{Answer, LONGEST_LINE};
use gtfs_days::Zone;
use gtfs_table::{Failed, Out, write_text};
use std::alloc::Global;

// What answers are made of: the index of a feed, and a zone.
#[derive(Clone, Copy)]
pub(crate) struct Answers<'a> {
    pub(crate) alloc: Global,
    pub(crate) index: &'a StopIndex<'a>,
    pub(crate) zone: &'a Zone,
}

impl Answer for Answers<'_> {
    ghost use Rattle.gtfs_rows.specs.RowsInMemory.{content_of_parts};
    ghost use Rattle.gtfs_cli.specs.ServeAnswers.{AnswersLine, IsAnswerPart};

    ghost is_answer = { λ a. AnswersLine (content_of_parts a.index.now.feed) a.zone.now a.index.now.times };

    ghost is_part = { λ a. IsAnswerPart (content_of_parts a.index.now.feed) a.zone.now a.index.now.times };

    fn answer<O: Out>(&self, line: &[u8], out: &mut O) -> Result<(), Failed> {
        if line.is_empty() {
            return Ok(());
        }
        match self.print_text(line, out) {
            Ok(()) => match write_text(out, b"\n") {
                Ok(()) => Ok(()),
                Err(_) => Err(Failed),
            },
            Err(_) => Err(Failed),
        }
    }
}

impl Answers<'_> {
    // Prints the text of a line: what it asks for, or a line that says why there is none.
    // Errors: `OutputFailed`.
    fn print_text<'w, O: Out>(&self, line: &[u8], out: &mut O) -> Result<(), Refusal<'w>>
        ensures { let f = content_of_parts self.now.index.now.feed in let z = self.now.zone.now in
            let times = self.now.index.now.times in
            PrintsText (IsLineText IsSomeText f z times line.now) (IsLinePart f z times line.now) (λ _. ⊥) (λ _. ⊥)
            (⟦<O as OutSeen>⟧.seen out.old) (⟦<O as OutSeen>⟧.seen out.new) result }
    {
        if line.len() > LONGEST_LINE {
            return send(b"!! line too long\n", out);
        }
        match read_question(line, self.index.times()) {
            Some(question) => self.print_answer(&question, out),
            None => send(b"!! bad request\n", out),
        }
    }

    // Prints what a question asks for, and where that is refused a line that says why.
    // Errors: `OutputFailed`.
    fn print_answer<'w, O: Out>(
        &self,
        question: &Question<'_>,
        out: &mut O,
    ) -> Result<(), Refusal<'w>>
        requires { IsSoundQuestion self.now.index.now.times question.now }
        ensures { let f = content_of_parts self.now.index.now.feed in let z = self.now.zone.now in
            let q = question_of question.now in
            PrintsText (IsSomeText f z q) (IsTextPart f z q) (λ _. ⊥) (λ _. ⊥)
            (⟦<O as OutSeen>⟧.seen out.old) (⟦<O as OutSeen>⟧.seen out.new) result }
    {
        match self.print_question(question, out) {
            Ok(()) => Ok(()),
            Err(refusal) => match refused_line(&refusal) {
                Some(line) => send(line, out),
                None => Err(Refusal::OutputFailed),
            },
        }
    }

    // Prints what a question asks for.
    // Errors: Of a board `UnknownStop` and then `UntilBeforeFrom`, of a timetable `UnknownRoute`.
    // Then `OutputFailed`, and `OutOfMemory`.
    fn print_question<'w, O: Out>(
        &self,
        question: &Question<'_>,
        out: &mut O,
    ) -> Result<(), Refusal<'w>>
        requires { IsSoundQuestion self.now.index.now.times question.now }
        ensures { let f = content_of_parts self.now.index.now.feed in let z = self.now.zone.now in
            let q = question_of question.now in
            PrintsText (IsPrinted f z q) (IsCut f z q) (IsBeginning f z q) (IsQuestionCause f z q)
            (⟦<O as OutSeen>⟧.seen out.old) (⟦<O as OutSeen>⟧.seen out.new) result }
    {
        match question {
            Question::Board(request) => self.print_board(request, out),
            Question::Timetable(request) => print_sheets(
                self.alloc,
                self.index.feed(),
                request.route,
                &request.values,
                out,
            ),
        }
    }

    // Prints a page of a board.
    fn print_board<'w, O: Out>(
        &self,
        request: &StopRequest<'_>,
        out: &mut O,
    ) -> Result<(), Refusal<'w>>
        requires times { request.now.values.times ≡ self.now.index.now.times }
        requires from { IsSound request.now.values.from }
        requires until { IsSound request.now.values.until }
        ensures { let f = content_of_parts self.now.index.now.feed in let z = self.now.zone.now in
            let q = stop_request_of request.now in
            PrintsText (IsRequestText IsPage f z q) (IsRequestText IsCutShort f z q) (AreFirstLines f z q)
            (IsBoardCause f z q)
            (⟦<O as OutSeen>⟧.seen out.old) (⟦<O as OutSeen>⟧.seen out.new) result }
    {
        let mut board = open_request(self.alloc, self.index, self.zone, request)?;
        print_page(self.alloc, &mut board, request.values.limit, out)
    }
}

// The line that an answer has for what was refused. None where the output failed.
fn refused_line(refusal: &Refusal<'_>) -> Option<&'static [u8]>
    ensures { option_map (λ line. line.now) result ≡ line_for refusal.now }
{
    match refusal {
        Refusal::UnknownStop => Some(b"!! unknown stop\n"),
        Refusal::UnknownRoute => Some(b"!! unknown route\n"),
        Refusal::UntilBeforeFrom => Some(b"!! until lies before from\n"),
        Refusal::OutputFailed => None,
        _ => Some(b"!! out of memory\n"),
    }
}

//! A watch of a unit that may be steered, and whose numbers may be noted.

use crate::run_status::RunStatus;
use addresses::Directory;
use desk::Desk;
use ports::{Look, Status, Watch};
use stats::Traffic;

/// A watch, and beside it what peers are shown, and the numbers of legs that are noted.
#[derive(Drop)]
pub struct SteeredWatch<'a, W: Drop> {
    pub watch: W,
    pub run_status: &'a RunStatus,
    pub traffic: &'a Traffic,
    pub directory: &'a Directory,
}

impl<W: Watch + Drop> Watch for SteeredWatch<'_, W> {
    fn is_due(&self, moment: u64) -> bool {
        self.watch.is_due(moment)
            || self.run_status.wants_counts()
            || self.run_status.are_numbers_due(moment)
    }

    fn show(&mut self, moment: u64, status: &Status) {
        if self.watch.is_due(moment) {
            self.watch.show(moment, status);
        }
        self.run_status.show_counts(status);
        if self.run_status.are_numbers_due(moment) {
            self.run_status.note_numbers(moment, self.traffic);
        }
    }

    fn look(&self) -> Look {
        self.run_status.look(self.traffic)
    }

    fn show_endpoint(&mut self, endpoint: u16, is_present: bool) {
        if let Some(mut steering) = self.run_status.steering() {
            let moment = self.run_status.moment_ms.get();
            let naming = self.directory.naming(endpoint);
            steering.show_endpoint(endpoint, is_present, naming, self.traffic, moment);
        }
    }

    fn show_stay(&mut self, leg: u16, stay: Option<u64>) {
        if let Some(mut steering) = self.run_status.steering() {
            steering.show_stay(leg, stay, self.traffic);
        }
    }

    fn show_desk(&mut self, publisher: u16, desk: &Desk) {
        if let Some(mut steering) = self.run_status.steering() {
            steering.show_desk(publisher, desk);
        }
    }

    fn end_look(&mut self) {
        if let Some(mut steering) = self.run_status.steering() {
            let moment = self.run_status.moment_ms.get();
            let (unheard, screened) = (self.run_status.unheard(), self.run_status.screened());
            steering.end(self.traffic, &unheard, &screened, moment);
        }
    }
}

//! Digests of rows, made side by side before they are asked for.

ghost use Rattle.std.specs.Prelude.{◌≡◌};

use crate::engine::Engine;
use crate::quiet::QuietEngine;
use crate::stage::Stage;
use row_text::DigestForm;
use std::thread::Threads;

impl QuietEngine {
    /// Makes the digests that the next partition text takes, on as many threads as there are workers, where no batch is
    /// unfinished and many rows were written since they were made last. Nothing else comes of it: `rows_digest` makes
    /// what isn't made here.
    pub(crate) fn keep_digests<R: Threads + Sync>(&mut self, rt: &R, form: DigestForm)
        ensures { self.new ≡ self.old }
    {
        if form == DigestForm::Rows || self.is_busy() {
            return;
        }
        let Some(Stage::Idle(mut store, carried)) = self.stage.take() else {
            unreachable!()
        };
        store.keep_digests(rt, self.configuration.settings.workers);
        self.stage = Some(Stage::Idle(store, carried));
    }
}

impl Engine {
    /// Makes the digests that the next partition text takes, on as many threads as there are workers, where no batch is
    /// unfinished and many rows were written since they were made last. Nothing else comes of it: `rows_digest` makes
    /// what isn't made here.
    pub fn keep_digests<R: Threads + Sync>(&mut self, rt: &R, form: DigestForm)
        ensures { self.new ≡ self.old }
    {
        self.core.keep_digests(rt, form);
    }
}

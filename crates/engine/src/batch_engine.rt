//! What the engines have in common.

ghost use Rattle.std.specs.Prelude.{◌≡◌, false, IfOk, string_bytes};
ghost use Rattle.row_text.specs.Partitions.{digested_text};
ghost use Rattle.row_text.specs.Texts.{digest};
ghost use Rattle.engine.specs.Engines.{is_busy, tables_of};

use crate::engine::Engine;
use crate::quiet::QuietEngine;
use crate::stage::Stage;
use row_text::DigestForm;
use std::alloc::AllocError;

/// An engine, whether it publishes or not.
pub trait BatchEngine {
    ghost use Rattle.engine.specs.Engines.{EngineParts};

    // it without what it publishes
    ghost parts: { Self → EngineParts };

    /// The engine without what it publishes.
    fn core(&self) -> &QuietEngine
        ensures { result.now ≡ parts self.now };

    /// The digest of the rows, where no batch is unfinished: of their row text, or of their partition text. Only rows
    /// are looked at that may have changed since the last such digest: all, or those of some partitions.
    fn rows_digest(&mut self, form: DigestForm) -> Result<String, AllocError>
        requires idle { is_busy (parts self.old) ≡ false }
        ensures digest { IfOk result (λ t.
            string_bytes t ≡ digest (digested_text form (tables_of (parts self.old)) (parts self.old).rows)) }
        ensures same { self.new ≡ self.old };
}

impl BatchEngine for QuietEngine {
    ghost parts = { λ engine. engine };

    fn core(&self) -> &QuietEngine {
        self
    }

    fn rows_digest(&mut self, form: DigestForm) -> Result<String, AllocError> {
        let Some(Stage::Idle(mut store, carried)) = self.stage.take() else {
            unreachable!()
        };
        let digest = store.rows_digest(form);
        self.stage = Some(Stage::Idle(store, carried));
        digest
    }
}

impl BatchEngine for Engine {
    ghost parts = { λ engine. engine.core };

    fn core(&self) -> &QuietEngine {
        &self.core
    }

    fn rows_digest(&mut self, form: DigestForm) -> Result<String, AllocError> {
        self.core.rows_digest(form)
    }
}

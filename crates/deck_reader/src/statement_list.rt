//! Statements in their order.
ghost use Rattle.std.specs.Prelude.{◌≡◌, ◌++◌, ◌∷◌, [], IfOk};

use crate::statement::Statement;
use std::alloc::{AllocError, Global};
use std::marker::Model;

/// The statements of a procedure, which contracts see as a list.
#[derive(Drop)]
pub struct StatementList {
    statements: Vec<Statement>,
}

impl Model for StatementList {
    ghost use Rattle.std.specs.Prelude.{List};
    ghost use Rattle.deck_reader.specs.declared.statement.Statement.{Statement};

    ghost Value = { List Statement };

    ghost view = { λ s. s.statements.items };
}

impl StatementList {
    /// No statements, with room for so many.
    pub fn with_capacity(alloc: Global, capacity: usize) -> Result<Self, AllocError>
        ensures { IfOk result (λ statements. statements ≡ []) }
    {
        Ok(StatementList {
            statements: Vec::with_capacity(alloc, capacity)?,
        })
    }

    /// The statements themselves.
    pub fn as_slice(&self) -> &[Statement]
        ensures { result.now ≡ self.now }
    {
        self.statements.as_slice()
    }

    /// The statements, and one more at the end.
    pub fn with(self, statement: Statement) -> Result<Self, AllocError>
        ensures { IfOk result (λ statements. statements ≡ self ++ statement ∷ []) }
    {
        let StatementList { mut statements } = self;
        statements.push(statement)?;
        Ok(StatementList { statements })
    }
}

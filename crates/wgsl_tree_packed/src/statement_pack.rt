//! Statements as trees.

ghost use Rattle.wgsl_model.specs.Trees.Statements as plain;
ghost use Rattle.wgsl_model_packed.specs.Statements.{packed_statement};
ghost use Rattle.wgsl_tree_statement.specs.View.{statement_view};

use crate::statement::pack_statement;
use crate::traits::Pack;
use std::alloc::AllocError;
use wgsl_tree_statement::Statement;

impl Pack for Statement {
    ghost Plain = { plain.Statement };

    ghost view = { statement_view };

    ghost packed = { packed_statement };

    fn pack(&self, out: &mut Vec<u8>) -> Result<(), AllocError> {
        pack_statement(self, out)
    }
}

//! A law of statements under way: at each step an item has changed what one may that ends before its answer, so an
//! engine whose device failed can end each. The function is empty; its contract is the law. That ROLLBACK, ROLLBACK TO
//! and a CREATE TABLE that finds its table change nothing is known of legal histories alone (`IsKept` of `sql_lists`).

ghost use Rattle.std.specs.Prelude.{ℕ};
ghost use Rattle.sql_grammar.specs.Grammar.{Spells};
ghost use Rattle.sql_history.specs.Legal.{IsLegal, MadeSome};
ghost use Rattle.shared_lists.specs.State.{State};
ghost use Rattle.transaction_statements.specs.declared.statement.TransactionStatement.{TransactionStatement};
ghost use Rattle.transaction_statements.specs.Running as of_transaction;
ghost use Rattle.create_statement.specs.declared.machine.CreateStatement.{CreateStatement};
ghost use Rattle.create_statement.specs.Running as of_create;
ghost use Rattle.read_statement.specs.declared.machine.ReadStatement.{ReadStatement};
ghost use Rattle.read_statement.specs.Running as of_read;
ghost use Rattle.write_statement.specs.declared.machine.WriteStatement.{WriteStatement};
ghost use Rattle.write_statement.specs.Running as of_write;
ghost use Rattle.statement.specs.declared.under_way.Statement.{Statement};
ghost use Rattle.statement.specs.Running.{IsRunning};

/// An item whose statement is under way may end before its answer, as far as its changes go.
pub fn an_item_may_break_off_at_each_step()
    ensures transaction { (state : State) (s : ℕ) (m : TransactionStatement) → IsLegal Spells state.past
        → of_transaction.IsRunning state s m → MadeSome Spells s state.past }
    ensures create { (state : State) (s : ℕ) (m : CreateStatement) → IsLegal Spells state.past
        → of_create.IsRunning state s m → MadeSome Spells s state.past }
    ensures read { (state : State) (s : ℕ) (m : ReadStatement) → of_read.IsRunning state s m
        → MadeSome Spells s state.past }
    ensures write { (state : State) (s : ℕ) (m : WriteStatement) → of_write.IsRunning state s m
        → MadeSome Spells s state.past }
    ensures statement { (state : State) (s : ℕ) (m : Statement) → IsLegal Spells state.past → IsRunning state s m
        → MadeSome Spells s state.past }
{}

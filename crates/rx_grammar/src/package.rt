//! Declarations and packages.

ghost use Rattle.std.specs.Prelude.{◌≡◌, [], ◌∷◌};
ghost use Rattle.rx_grammar.specs.Grammar.{rule, many, inner, refine, type_decl, plain_decl, with_clause, header, plain_file, name_more};
ghost use Rattle.rx_grammar.specs.First.{after};
ghost use Rattle.rx_grammar.specs.Sentence.{Each, IsInner, IsDecl, IsWith, IsHeader, IsPackage};
ghost use Rattle.rx_grammar.specs.Reads.{Reads};
ghost use Rattle.rx_grammar.specs.declared.terminal.Terminal.TheVariants as terminal;
ghost use Rattle.rx_grammar.specs.declared.terminal.Keyword.TheVariants as word;

use crate::Fault;
use crate::cursor::{Cursor, pushed, sees, sees_either, take, take_name};
use crate::definition::def;
use crate::expression::full_name;
use crate::link::condition;
use crate::terminal::{Keyword, Terminal};
use rx_syntax::{DeclKind, DeclTree, HeaderTree, Mark, NameTree, Named, PackageTree, RefineTree};
use std::alloc::Global;

/// name | "null"
fn inner<'t>(alloc: Global, cursor: Cursor<'t>) -> Result<(Option<NameTree>, Cursor<'t>), Fault>
    ensures { Reads inner (after name_more) IsInner cursor.entry result }
{
    if sees(cursor, Terminal::Keyword(Keyword::Null)) {
        let (_, cursor) = take(cursor, Terminal::Keyword(Keyword::Null))?;
        return Ok((None, cursor));
    }
    let (name, cursor) = full_name(alloc, cursor)?;
    Ok((Some(name), cursor))
}

/// "for" name "use" "(" NAME "=>" (name | "null") ")" ["if" expr] ";"
fn refine<'t>(alloc: Global, cursor: Cursor<'t>) -> Result<(DeclTree, Cursor<'t>), Fault>
    ensures { Reads (rule refine) (after []) IsDecl cursor.entry result }
{
    let (token, cursor) = take(cursor, Terminal::Keyword(Keyword::For))?;
    let (message, cursor) = full_name(alloc, cursor)?;
    let (_, cursor) = take(cursor, Terminal::Keyword(Keyword::Use))?;
    let (_, cursor) = take(cursor, Terminal::Mark(Mark::ParenLeft))?;
    let (field, cursor) = take_name(alloc, cursor)?;
    let (_, cursor) = take(cursor, Terminal::Mark(Mark::Arrow))?;
    let (held, cursor) = inner(alloc, cursor)?;
    let (_, cursor) = take(cursor, Terminal::Mark(Mark::ParenRight))?;
    let (test, cursor) = condition(alloc, cursor)?;
    let (_, cursor) = take(cursor, Terminal::Mark(Mark::Semicolon))?;
    let tree = RefineTree {
        message,
        field,
        inner: held,
        condition: test,
    };
    let decl = DeclTree {
        place: token.place,
        kind: DeclKind::Refine(tree),
    };
    Ok((decl, cursor))
}

/// "type" NAME "is" def ";"
fn type_decl<'t>(alloc: Global, cursor: Cursor<'t>) -> Result<(DeclTree, Cursor<'t>), Fault>
    ensures { Reads type_decl (after []) IsDecl cursor.entry result }
{
    let (token, cursor) = take(cursor, Terminal::Keyword(Keyword::Type))?;
    let (name, cursor) = take_name(alloc, cursor)?;
    let (_, cursor) = take(cursor, Terminal::Keyword(Keyword::Is))?;
    let (kind, cursor) = def(alloc, cursor)?;
    let (_, cursor) = take(cursor, Terminal::Mark(Mark::Semicolon))?;
    let decl = DeclTree {
        place: token.place,
        kind: DeclKind::Defined(name, kind),
    };
    Ok((decl, cursor))
}

/// "type" NAME "is" def ";" | refine
pub fn decl<'t>(alloc: Global, cursor: Cursor<'t>) -> Result<(DeclTree, Cursor<'t>), Fault>
    ensures { Reads (rule plain_decl) (after []) IsDecl cursor.entry result }
{
    if sees(cursor, Terminal::Keyword(Keyword::Type)) {
        let (defined, cursor) = type_decl(alloc, cursor)?;
        return Ok((defined, cursor));
    }
    let (refined, cursor) = refine(alloc, cursor)?;
    Ok((refined, cursor))
}

/// {decl}
fn decls<'t>(alloc: Global, start: Cursor<'t>) -> Result<(Vec<DeclTree>, Cursor<'t>), Fault>
    ensures { Reads (many (rule plain_decl)) (after (terminal.Keyword word.Type ∷ terminal.Keyword word.For ∷ [])) (λ ts v. Each IsDecl ts v.items) start.entry result }
{
    let mut list = Vec::new(alloc);
    let mut cursor = start;
    'parts: while sees_either(
        cursor,
        Terminal::Keyword(Keyword::Type),
        Terminal::Keyword(Keyword::For),
    ) {
        let (next, behind) = decl(alloc, cursor)?;
        list = pushed(list, next)?;
        cursor = behind;
    }
    Ok((list, cursor))
}

/// "with" NAME ";"
fn with_clause<'t>(alloc: Global, cursor: Cursor<'t>) -> Result<(Named, Cursor<'t>), Fault>
    ensures { Reads with_clause (after []) IsWith cursor.entry result }
{
    let (_, cursor) = take(cursor, Terminal::Keyword(Keyword::With))?;
    let (name, cursor) = take_name(alloc, cursor)?;
    let (_, cursor) = take(cursor, Terminal::Mark(Mark::Semicolon))?;
    Ok((name, cursor))
}

/// {"with" NAME ";"}
fn with_clauses<'t>(alloc: Global, start: Cursor<'t>) -> Result<(Vec<Named>, Cursor<'t>), Fault>
    ensures { Reads (many with_clause) (after (terminal.Keyword word.With ∷ [])) (λ ts v. Each IsWith ts v.items) start.entry result }
{
    let mut list = Vec::new(alloc);
    let mut cursor = start;
    'parts: while sees(cursor, Terminal::Keyword(Keyword::With)) {
        let (next, behind) = with_clause(alloc, cursor)?;
        list = pushed(list, next)?;
        cursor = behind;
    }
    Ok((list, cursor))
}

/// {"with" NAME ";"} "package" NAME "is"
pub fn header<'t>(alloc: Global, cursor: Cursor<'t>) -> Result<(HeaderTree, Cursor<'t>), Fault>
    ensures { Reads (rule header) (after []) IsHeader cursor.entry result }
{
    let (withs, cursor) = with_clauses(alloc, cursor)?;
    let (_, cursor) = take(cursor, Terminal::Keyword(Keyword::Package))?;
    let (name, cursor) = take_name(alloc, cursor)?;
    let (_, cursor) = take(cursor, Terminal::Keyword(Keyword::Is))?;
    Ok((HeaderTree { withs, name }, cursor))
}

/// header {decl} "end" NAME ";"
pub fn package_text<'t>(
    alloc: Global,
    cursor: Cursor<'t>,
) -> Result<(PackageTree, Cursor<'t>), Fault>
    ensures { Reads (rule plain_file) (after []) IsPackage cursor.entry result }
{
    let (head, cursor) = header(alloc, cursor)?;
    let (list, cursor) = decls(alloc, cursor)?;
    let (_, cursor) = take(cursor, Terminal::Keyword(Keyword::End))?;
    let (end_name, cursor) = take_name(alloc, cursor)?;
    let (_, cursor) = take(cursor, Terminal::Mark(Mark::Semicolon))?;
    let tree = PackageTree {
        header: head,
        decls: list,
        end_name,
    };
    Ok((tree, cursor))
}

//! The statement of a chunk.

ghost use Rattle.std.specs.Prelude.{ℕ, ◌≡◌, ◌+◌, ◌<◌, ◌^◌, ◌==◌, IfOk, IfErr, IfSome, IfNone, map, count_by};
ghost use Rattle.bz_token.specs.Places.{placed};
ghost use Rattle.bz_token.specs.Reading.{AreTokensOf};
ghost use Rattle.bz_tree.specs.Tree.{Statement};
ghost use Rattle.bz_tree.specs.View.{view};
ghost use Rattle.bz_tree.specs.Borrowed.{owned_texts};
ghost use Rattle.bz_tree.specs.Places.{AreSpelled, HasPlacesIn, HasPlacesOf, spelling};
ghost use Rattle.bz_tree.specs.Statement.{EndsFit, first_seen, last_seen};
ghost use Rattle.bz_tree.specs.Chunk.{IsPlain, indent_fault, IsChunkOf, IsStatementIn, IsBlank, IsFaultIn};
ghost use Rattle.bz_tree.specs.private.BlockSteps.{AreStanding};

use crate::fault::ParseFault;
use crate::grammar::accepts;
use crate::grammar::stage::Stage;
use crate::tree::block::{block_indent, comments_above, is_block, is_block_word};
use crate::tree::build::run;
use crate::tree::classes::class_of;
use crate::tree::kept::kept_text;
use crate::tree::span::{counted_end_of, end_line, first_seen, first_token, last_seen, start_of};
use crate::tree::{Class, Leaf, Node, Stmt};
use bumpalo::Bump;
use bz_memory::{NoMemory, with_capacity};
use bz_token::{Kind, LexFault, Token, tokens_in};
use std::alloc::Global;
use std::borrow::CowStr;

// The statement of the tokens, which are no block. None: they have none.
fn plain_statement<'a>(alloc: Global, tokens: &[Token<'a>]) -> Result<Option<Stmt<'a>>, NoMemory>
    requires { EndsFit (map placed tokens.now) }
    ensures statement { IfOk result (λ o. IfSome o (λ s. IsPlain (map placed tokens.now) (view s))) }
    ensures borrowed { IfOk result (λ o. IfSome o (λ s. owned_texts s ≡ 0)) }
    ensures places { IfOk result (λ o. IfSome o (λ s. AreSpelled (map placed tokens.now) (spelling s))) }
    ensures none { IfOk result (λ o. IfNone o ((t : Statement) → IsPlain (map placed tokens.now) t → ⊥)) }
{
    let Some(end) = counted_end_of(tokens) else {
        // The condition rules it out.
        return Ok(None);
    };
    let Some(seg) = run(alloc, tokens)? else {
        return Ok(None);
    };
    if !accepts(Stage::Statement, &seg.nodes) {
        return Ok(None);
    }
    let class = class_of(&seg.nodes);
    Ok(Some(Stmt {
        before: seg.before,
        nodes: seg.nodes,
        suffix: seg.suffix,
        class,
        start: start_of(tokens),
        end,
    }))
}

// The statement of a chunk's tokens, a block or not. None: they have none.
fn chunk_statement<'a>(
    alloc: Global,
    text: &'a str,
    first_line: u64,
    tokens: &[Token<'a>],
) -> Result<Option<Stmt<'a>>, NoMemory>
    requires lines { first_line + count_by (λ b. b == 10) text.now < 2 ^ 64 }
    requires ends { EndsFit (map placed tokens.now) }
    requires standing { AreStanding first_line text.now (map placed tokens.now) }
    ensures statement { IfOk result
        (λ o. IfSome o (λ s. IsChunkOf first_line text.now (map placed tokens.now) (view s))) }
    ensures borrowed { IfOk result (λ o. IfSome o (λ s. owned_texts s ≡ 0)) }
    ensures places { IfOk result (λ o. IfSome o (HasPlacesOf (map placed tokens.now))) }
    ensures none { IfOk result (λ o. IfNone o ((t : Statement)
        → IsChunkOf first_line text.now (map placed tokens.now) t → ⊥)) }
{
    let header = match first_token(tokens) {
        Some(token) if is_block_word(&token) => token,
        _ => return plain_statement(alloc, tokens),
    };
    if !is_block(tokens) {
        return Ok(None);
    }
    let Some(last) = last_seen(tokens) else {
        return Ok(None);
    };
    let before = comments_above(alloc, tokens)?;
    let kept = Leaf {
        kind: Kind::Kept,
        text: CowStr::Borrowed(kept_text(text, first_line, &header, &last)),
        line: header.line,
        col: header.col,
        fresh: header.fresh,
    };
    let mut nodes = with_capacity(alloc, 1)?;
    nodes.push_reserved(Node::Token(kept));
    Ok(Some(Stmt {
        before,
        nodes,
        suffix: None,
        class: Class::Block,
        start: header.line,
        end: end_line(&last),
    }))
}

// The line at which a chunk is indented wrongly.
fn indent_fault(alloc: Global, tokens: &[Token<'_>]) -> Result<Option<u64>, NoMemory>
    ensures { IfOk result (λ o. o ≡ indent_fault (map placed tokens.now)) }
{
    match first_token(tokens) {
        None => Ok(None),
        Some(token) if token.col != 1 => Ok(Some(token.line)),
        Some(token) if is_block_word(&token) => block_indent(alloc, tokens),
        Some(_) => Ok(None),
    }
}

/// What `parse` gives for a chunk with these tokens.
pub(crate) fn parse_tokens<'a>(
    alloc: Global,
    text: &'a str,
    first_line: u64,
    tokens: &[Token<'a>],
) -> Result<Option<Stmt<'a>>, ParseFault>
    requires lines { first_line + count_by (λ b. b == 10) text.now < 2 ^ 64 }
    requires tokens { (depth : ℕ) × AreTokensOf first_line depth text.now (map placed tokens.now) }
    ensures statement { IfOk result (λ o. IfSome o (λ s. (depth : ℕ)
        → AreTokensOf first_line depth text.now (map placed tokens.now)
        → IsStatementIn first_line depth text.now (view s))) }
    ensures borrowed { IfOk result (λ o. IfSome o (λ s. owned_texts s ≡ 0)) }
    ensures places { IfOk result (λ o. IfSome o (HasPlacesOf (map placed tokens.now))) }
    ensures blank { IfOk result (λ o. IfNone o ((depth : ℕ)
        → AreTokensOf first_line depth text.now (map placed tokens.now) → IsBlank first_line depth text.now)) }
    ensures fault { IfErr result (λ fault. (depth : ℕ)
        → AreTokensOf first_line depth text.now (map placed tokens.now) → IsFaultIn first_line depth text.now fault) }
{
    if first_seen(tokens).is_none() {
        return Ok(None);
    }
    if let Some(line) = indent_fault(alloc, tokens)? {
        return Err(ParseFault::Indented { line });
    }
    match chunk_statement(alloc, text, first_line, tokens)? {
        Some(stmt) => Ok(Some(stmt)),
        None => Err(ParseFault::NotAStatement {
            line: start_of(tokens),
        }),
    }
}

/// Parses a chunk: gives the statement of its text. The chunk's first line has this number, and at most so many brackets
/// may be open at once. None: the chunk is blank. Every text of the statement is borrowed from the chunk. The rules are
/// those of the Starlark specification; blocks and the owners of comments are this project's own.
pub fn parse<'a>(
    alloc: Global,
    text: &'a str,
    first_line: u64,
    max_depth: u8,
) -> Result<Option<Stmt<'a>>, ParseFault>
    requires { first_line + count_by (λ b. b == 10) text.now < 2 ^ 64 }
    ensures statement { IfOk result (λ o. IfSome o (λ s. IsStatementIn first_line max_depth text.now (view s))) }
    ensures borrowed { IfOk result (λ o. IfSome o (λ s. owned_texts s ≡ 0)) }
    ensures places { IfOk result (λ o. IfSome o (HasPlacesIn first_line max_depth text.now)) }
    ensures blank { IfOk result (λ o. IfNone o (IsBlank first_line max_depth text.now)) }
    ensures fault { IfErr result (IsFaultIn first_line max_depth text.now) }
{
    let bump = Bump::new(alloc);
    match tokens_in(&bump, text, first_line, max_depth) {
        Ok(tokens) => parse_tokens(alloc, text, first_line, tokens),
        Err(LexFault::OutOfMemory(why)) => Err(ParseFault::OutOfMemory(why)),
        Err(fault) => Err(ParseFault::Lex(fault)),
    }
}

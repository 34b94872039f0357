//! What a rule on expressions makes of a text.

use crate::notation::Notation;
use crate::pages::Page;
use crate::queries::write_expr;
use aql_lex::lex;
use aql_parse::parse;
use aql_rewrite::{ExprRule, first_in_expr};
use aql_tree::Query;
use std::alloc::Global;

fn write_first<R: ExprRule>(alloc: Global, rule: &R, query: &Query, page: &mut Page) {
    match first_in_expr(alloc, rule, &query.result) {
        Ok(Some(expr)) => write_expr("", &expr, Notation::Bracketed, page),
        Ok(None) => page.put("no place"),
        Err(_) => page.put("no memory"),
    }
}

/// What stands in place of the expression of a text `RETURN ..` after a rule was applied at its
/// first place; `no place` where it has none.
pub fn rewritten<R: ExprRule>(alloc: Global, rule: &R, text: &str) -> Page {
    let mut page = Page::new(alloc);
    if text.len() > 65536 {
        page.put("a text is too long");
    } else {
        match lex(alloc, text) {
            Ok(tokens) => match parse(alloc, &tokens) {
                Ok(query) => write_first(alloc, rule, &query, &mut page),
                Err(_) => page.put("no tree"),
            },
            Err(_) => page.put("no tokens"),
        }
    }
    page
}

// What the rows of the tables are judged by.
use std::process::Abort;
pub use test_support::Page;

pub fn expect_page(rt: &impl Abort, page: &Page, want: &str, of: &str) {
    assert!(rt; page.is_whole());
    assert_eq!(rt; page.as_str(), want, "of {of}");
}

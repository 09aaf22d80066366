//! A report as one page of HTML, without anything from outside. It is a fixed text, between whose parts the invocations stand as JSON. A
//! script of the page shows them by package, class and method.

mod page_text;
mod rows;

pub(crate) use rows::{HtmlPage, PageEnd, Read};

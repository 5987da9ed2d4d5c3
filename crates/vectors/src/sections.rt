// Sections of apps.
use crate::documents::print_taken;
use crate::fields::print_fault;
use ac_types::{FaultKind, ReadError, fault_at};
use app_section::App;
use scripts::Page;
use serde_json::Value;
use std::alloc::Global;

fn print_value(page: &mut Page, value: &Value) {
    if let Some(text) = page.made(value.to_string(page.alloc())) {
        page.put(text.as_str());
    }
}

/// `json TEXT`: the text as JSON is written.
pub fn json_answer(page: &mut Page, text: &str) {
    match Value::from_str(page.alloc(), text) {
        Ok(value) => print_value(page, &value),
        Err(_) => page.put("no JSON"),
    }
}

// The app of a section that stands at `app`.
fn app_of(alloc: Global, text: &str) -> Result<App, ReadError> {
    match Value::from_str(alloc, text) {
        Ok(value) => App::read(alloc, &value, "app"),
        Err(_) => Err(fault_at(alloc, "$", FaultKind::NotJson)),
    }
}

/// `section JSON`: whether it is taken, or its first fault.
pub fn section_answer(page: &mut Page, text: &str) {
    print_taken(page, app_of(page.alloc(), text));
}

fn print_written(page: &mut Page, app: &App) {
    if let Some(value) = page.made(app.value(page.alloc())) {
        print_value(page, &value);
    }
}

fn print_copy(page: &mut Page, app: &App) {
    if let Some(copy) = page.made(app.copy()) {
        print_written(page, &copy);
    }
}

/// `section-again JSON`: what is written of a copy of the section that was read.
pub fn written_section_answer(page: &mut Page, text: &str) {
    match app_of(page.alloc(), text) {
        Ok(app) => print_copy(page, &app),
        Err(error) => print_fault(page, &error),
    }
}

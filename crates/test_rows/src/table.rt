// Reading a table of rows.
use crate::line_fault::{LineFault, TableFault};
use crate::row::Row;
use std::alloc::Global;

// A line of a table, with its number, counted from 1.
#[derive(Clone, Copy)]
struct Line<'t> {
    number: usize,
    text: &'t str,
}

// A table as far as it was read.
#[derive(Drop)]
struct Table<'t> {
    alloc: Global,
    rows: Vec<Row>,
    // The lines that stand in front of the rows of the group, and hold for each of them.
    group: Vec<Line<'t>>,
    // Whether a row of the group was begun.
    in_row: bool,
}

/// Reads a table of rows.
pub fn read_table(alloc: Global, text: &str) -> Result<Vec<Row>, TableFault> {
    let mut table = Table {
        alloc,
        rows: Vec::new(alloc),
        group: Vec::new(alloc),
        in_row: false,
    };
    let mut number = 0usize;
    for text in text.lines() {
        number = number.saturating_add(1);
        table.read_line(Line { number, text })?;
    }
    Ok(table.rows)
}

impl<'t> Table<'t> {
    fn read_line(&mut self, line: Line<'t>) -> Result<(), TableFault> {
        if line.text.starts_with('[') {
            self.in_row = false;
            self.group.clear();
            return Ok(());
        }
        if let Some(name) = line.text.strip_prefix("== ") {
            return self.begin_row(name, line.number);
        }
        match self.rows.last_mut() {
            Some(row) if self.in_row => read_in(self.alloc, row, line),
            _ => match self.group.push(line) {
                Ok(()) => Ok(()),
                Err(_) => Err(line.fault(LineFault::OutOfMemory)),
            },
        }
    }

    fn begin_row(&mut self, name: &str, number: usize) -> Result<(), TableFault> {
        let fault = TableFault {
            line: number,
            fault: LineFault::OutOfMemory,
        };
        let Ok(mut row) = Row::new(self.alloc, name, number) else {
            return Err(fault);
        };
        for line in &self.group {
            read_in(self.alloc, &mut row, *line)?;
        }
        self.in_row = true;
        match self.rows.push(row) {
            Ok(()) => Ok(()),
            Err(_) => Err(fault),
        }
    }
}

impl Line<'_> {
    fn fault(&self, fault: LineFault) -> TableFault {
        TableFault {
            line: self.number,
            fault,
        }
    }
}

// Reads a line of a row.
fn read_in(alloc: Global, row: &mut Row, line: Line<'_>) -> Result<(), TableFault> {
    match row.read_line(alloc, line.text) {
        Ok(()) => Ok(()),
        Err(fault) => Err(line.fault(fault)),
    }
}

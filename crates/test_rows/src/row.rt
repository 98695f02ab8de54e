// A row of a table.
use crate::escape::put_unescaped;
use crate::line_fault::LineFault;
use std::alloc::{AllocError, Global};

// The texts of a row.
#[derive(Clone, Copy)]
enum TextKey {
    Program,
    Query,
    Derivation,
    Output,
}

// A text whose lines may follow.
#[derive(Clone, Copy)]
struct OpenText {
    key: TextKey,
    escaped: bool,
}

/// A row: words, texts and faults, with the status and the output that are wanted.
#[derive(Drop)]
pub struct Row {
    pub name: String,
    /// The number of the line that names it.
    pub line: usize,
    pub words: Vec<String>,
    pub program: Vec<u8>,
    pub query: Vec<u8>,
    pub derivation: Vec<u8>,
    pub status: u64,
    pub output: Vec<u8>,
    /// The calls of the shelf that fail.
    pub shelf_fails: Vec<u64>,
    /// The calls of the sink that fail.
    pub sink_fails: Vec<u64>,
    /// The room of the sink, where it is limited.
    pub sink_room: Option<u64>,
    /// So many calls of the sink cut the output, each where it alone fails.
    pub cut_by_calls: u64,
    /// Each smaller room of the sink than this cuts the output.
    pub cut_by_rooms: u64,
    open: Option<OpenText>,
}

impl Row {
    /// A row with nothing in it but a name.
    pub fn new(alloc: Global, name: &str, line: usize) -> Result<Row, AllocError> {
        Ok(Row {
            name: String::from_str(alloc, name)?,
            line,
            words: Vec::new(alloc),
            program: Vec::new(alloc),
            query: Vec::new(alloc),
            derivation: Vec::new(alloc),
            status: 0,
            output: Vec::new(alloc),
            shelf_fails: Vec::new(alloc),
            sink_fails: Vec::new(alloc),
            sink_room: None,
            cut_by_calls: 0,
            cut_by_rooms: 0,
            open: None,
        })
    }

    /// Reads a line that sets something.
    pub fn read_line(&mut self, alloc: Global, line: &str) -> Result<(), LineFault> {
        if let Some(rest) = line.strip_prefix("    ") {
            let OpenText { key, escaped } = self.open.ok_or(LineFault::NoOpenText)?;
            return self.put(key, rest, escaped, "\n");
        }
        self.open = None;
        if line.is_empty() || line.starts_with('#') {
            return Ok(());
        }
        let (key, value) = line.split_once(':').ok_or(LineFault::NoSuchKey)?;
        let value = value.strip_prefix(' ').unwrap_or(value);
        match key.strip_suffix(", escaped") {
            Some(name) => {
                let text = text_key(name).ok_or(LineFault::NoSuchKey)?;
                self.set_text(text, value, true)
            }
            None => match text_key(key) {
                Some(text) => self.set_text(text, value, false),
                None => self.set(alloc, key, value),
            },
        }
    }

    // Sets a text, which goes on where nothing of it stands on its key's line.
    fn set_text(&mut self, key: TextKey, value: &str, escaped: bool) -> Result<(), LineFault> {
        if value.is_empty() {
            self.open = Some(OpenText { key, escaped });
        }
        self.text_mut(key).clear();
        self.put(key, value, escaped, "")
    }

    // Sets what a key that is no text's stands for.
    fn set(&mut self, alloc: Global, key: &str, value: &str) -> Result<(), LineFault> {
        match key {
            "words" => self.words = words_in(alloc, value)?,
            "bound" => self.words = run_words(alloc, value)?,
            "status" => self.status = number_in(value)?,
            "line" => self.output = line_of(alloc, value)?,
            "shelf fails at" => self.shelf_fails = numbers_in(alloc, value)?,
            "sink fails at" => self.sink_fails = numbers_in(alloc, value)?,
            "sink room" => self.sink_room = Some(number_in(value)?),
            "cut by calls" => self.cut_by_calls = number_in(value)?,
            "cut by rooms" => self.cut_by_rooms = number_in(value)?,
            _ => return Err(LineFault::NoSuchKey),
        }
        Ok(())
    }

    // Puts a piece of a text behind what there is of it, and an end behind that.
    fn put(
        &mut self,
        key: TextKey,
        piece: &str,
        escaped: bool,
        end: &str,
    ) -> Result<(), LineFault> {
        let text = self.text_mut(key);
        if escaped {
            put_unescaped(text, piece)?;
        } else {
            text.extend_from_slice(piece.as_bytes())?;
        }
        text.extend_from_slice(end.as_bytes())?;
        Ok(())
    }

    fn text_mut(&mut self, key: TextKey) -> &mut Vec<u8> {
        match key {
            TextKey::Program => &mut self.program,
            TextKey::Query => &mut self.query,
            TextKey::Derivation => &mut self.derivation,
            TextKey::Output => &mut self.output,
        }
    }
}

// The text that a key names.
fn text_key(key: &str) -> Option<TextKey> {
    match key {
        "prog" => Some(TextKey::Program),
        "ques" => Some(TextKey::Query),
        "proof" => Some(TextKey::Derivation),
        "out" => Some(TextKey::Output),
        _ => None,
    }
}

// The bytes of a line.
fn line_of(alloc: Global, text: &str) -> Result<Vec<u8>, AllocError> {
    let mut bytes = Vec::from_slice(alloc, text.as_bytes())?;
    bytes.push(b'\n')?;
    Ok(bytes)
}

// The words of a value, of which `''` is the empty one.
fn words_in(alloc: Global, value: &str) -> Result<Vec<String>, AllocError> {
    let mut words = Vec::new(alloc);
    for word in value.split_whitespace() {
        let word = if word == "''" { "" } else { word };
        words.push(String::from_str(alloc, word)?)?;
    }
    Ok(words)
}

// The words of a run by one worker with this bound.
fn run_words(alloc: Global, bound: &str) -> Result<Vec<String>, AllocError> {
    let mut words = Vec::new(alloc);
    for word in ["run", "prog", "ques", "--bound", bound, "--workers", "1"] {
        words.push(String::from_str(alloc, word)?)?;
    }
    Ok(words)
}

// The numbers of a value.
fn numbers_in(alloc: Global, value: &str) -> Result<Vec<u64>, LineFault> {
    let mut numbers = Vec::new(alloc);
    for word in value.split_whitespace() {
        numbers.push(number_in(word)?)?;
    }
    Ok(numbers)
}

fn number_in(value: &str) -> Result<u64, LineFault> {
    match value.parse::<u64>() {
        Ok(number) => Ok(number),
        Err(_) => Err(LineFault::NotNumber),
    }
}

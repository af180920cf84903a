//! The options of a command, read one argument after the other.
ghost use Rattle.std.specs.Prelude.{◌≡◌, ◌↔◌, Some, None, map, is_some, option_map, string_bytes};
ghost use Rattle.plant_words.specs.Asked.{AreOptions, Given, begins_with_hyphen};
ghost use Rattle.plant_words.specs.Reading.{given_of, named, nothing_given, read_from, state_of, taken, value_in, valued_named, with_value};

/// The options that arguments give. Their values are as they were written.
#[derive(Clone, Copy, Debug)]
pub struct Options<'a> {
    /// `--dir`.
    pub folder: Option<&'a str>,
    /// `--schema`.
    pub schema: Option<&'a str>,
    /// `--clock`.
    pub clock: Option<&'a str>,
    /// `--step`.
    pub step: Option<&'a str>,
    /// `--port`.
    pub port: Option<&'a str>,
    /// `--sessions`.
    pub sessions: Option<&'a str>,
    /// `--batch`.
    pub batch: bool,
}

/// An option that takes a value.
#[derive(Clone, Copy, Debug)]
pub(crate) enum Valued {
    Dir,
    Schema,
    Clock,
    Step,
    Port,
    Sessions,
}

/// What was read so far: the options, and the one that waits for its value.
#[derive(Clone, Copy, Debug)]
pub(crate) struct Reading<'a> {
    options: Options<'a>,
    waiting: Option<Valued>,
}

// The option of this name.
fn valued_named(argument: &str) -> Option<Valued>
    ensures { result ≡ valued_named argument.now }
{
    if argument == "--dir" {
        Some(Valued::Dir)
    } else if argument == "--schema" {
        Some(Valued::Schema)
    } else if argument == "--clock" {
        Some(Valued::Clock)
    } else if argument == "--step" {
        Some(Valued::Step)
    } else if argument == "--port" {
        Some(Valued::Port)
    } else if argument == "--sessions" {
        Some(Valued::Sessions)
    } else {
        None
    }
}

impl<'a> Options<'a> {
    // No option.
    fn none() -> Options<'a>
        ensures { given_of result ≡ nothing_given }
    {
        Options {
            folder: None,
            schema: None,
            clock: None,
            step: None,
            port: None,
            sessions: None,
            batch: false,
        }
    }

    // Whether the option was given.
    fn has(&self, option: Valued) -> bool
        ensures { result ≡ is_some (value_in (given_of self.now) option) }
    {
        match option {
            Valued::Dir => self.folder.is_some(),
            Valued::Schema => self.schema.is_some(),
            Valued::Clock => self.clock.is_some(),
            Valued::Step => self.step.is_some(),
            Valued::Port => self.port.is_some(),
            Valued::Sessions => self.sessions.is_some(),
        }
    }

    // The options with one more value.
    fn with(self, option: Valued, value: &'a str) -> Options<'a>
        ensures { given_of result ≡ with_value (given_of self.entry) option value.entry.now }
    {
        match option {
            Valued::Dir => Options {
                folder: Some(value),
                ..self
            },
            Valued::Schema => Options {
                schema: Some(value),
                ..self
            },
            Valued::Clock => Options {
                clock: Some(value),
                ..self
            },
            Valued::Step => Options {
                step: Some(value),
                ..self
            },
            Valued::Port => Options {
                port: Some(value),
                ..self
            },
            Valued::Sessions => Options {
                sessions: Some(value),
                ..self
            },
        }
    }
}

fn begins_with_hyphen(argument: &str) -> bool
    ensures { result ≡ begins_with_hyphen argument.now }
{
    matches!(argument.as_bytes(), [b'-', ..])
}

impl<'a> Reading<'a> {
    // Reads an argument that is to be a name.
    fn named(self, argument: &str) -> Option<Reading<'a>>
        ensures { option_map state_of result ≡ named (given_of self.entry.options) argument.now }
    {
        if argument == "--batch" {
            if self.options.batch {
                return None;
            }
            return Some(Reading {
                options: Options {
                    batch: true,
                    ..self.options
                },
                waiting: None,
            });
        }
        let option = valued_named(argument)?;
        if self.options.has(option) {
            return None;
        }
        Some(Reading {
            options: self.options,
            waiting: Some(option),
        })
    }

    // Reads one more argument: the value that an option waits for, or else a name.
    fn take(self, argument: &'a str) -> Option<Reading<'a>>
        ensures { option_map state_of result ≡ taken (state_of self.entry) argument.entry.now }
    {
        match self.waiting {
            None => self.named(argument),
            Some(option) => {
                if begins_with_hyphen(argument) {
                    return None;
                }
                Some(Reading {
                    options: self.options.with(option, argument),
                    waiting: None,
                })
            }
        }
    }
}

/// The options that the arguments give, if they give each at most once and no value begins with `-`.
pub fn options_of<'a>(arguments: &'a [String]) -> Option<Options<'a>>
    ensures options { (given : Given) → (option_map given_of result ≡ Some given) ↔ AreOptions (map string_bytes arguments.now) given }
{
    read_options(arguments)
}

// The options, as they are read one argument after the other.
fn read_options<'a>(arguments: &'a [String]) -> Option<Options<'a>>
    ensures { option_map given_of result ≡ read_from (Some (record { given = nothing_given; waiting = None })) (map string_bytes arguments.now) }
{
    let mut reading = Reading {
        options: Options::none(),
        waiting: None,
    };
    for argument in arguments {
        reading = reading.take(argument.as_str())?;
    }
    match reading.waiting {
        None => Some(reading.options),
        Some(_) => None,
    }
}

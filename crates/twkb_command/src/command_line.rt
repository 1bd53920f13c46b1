//! The command line, as it is described to `clap`.
ghost use Rattle.std.specs.Prelude.{◌≡◌, false, codes, IfOk};
ghost use Rattle.clap.specs.Words.{app_of, new_app, rule_of, shape_of, with_rule, with_subcommand};
ghost use Rattle.clap.specs.declared.builder.command.Command.TheViews.{out-Command};
ghost use Rattle.twkb_command.specs.Arguments.{bare_app, bare_flag, command_line, conversion_app};
ghost use Rattle.twkb_command.specs.Arguments.{conversion_shape, flag, with_digits};
ghost use Rattle.twkb_command.specs.Arguments.{file_word, max_nest, output_option, pack_shape, style_option};
ghost use Rattle.twkb_command.specs.Arguments.{null_option, precision_option, text_option, unpack_shape, with_column};
ghost use Rattle.twkb_command.specs.Arguments.{with_fields, with_files, with_geojson};

use crate::help;
use clap::{Arg, ArgAction, Command, value_parser};
use std::alloc::{AllocError, Global};
use twkb_convert::VERSION;
use twkb_tree::NEST_CAP;

// An option with this name, whose value is any text, with its help text.
fn text_option<'a>(alloc: Global, name: &'a str, value: &'a str, help: &'a str) -> Arg<'a>
    ensures rule { rule_of result ≡ text_option name.entry.now }
    ensures local { result.global ≡ false }
{
    Arg::new(alloc, name)
        .long(name)
        .value_name(value)
        .help(help)
}

// A flag with this name, with its help text.
fn flag<'a>(alloc: Global, name: &'a str, help: &'a str) -> Arg<'a>
    ensures rule { rule_of result ≡ flag name.entry.now }
    ensures local { result.global ≡ false }
{
    Arg::new(alloc, name)
        .long(name)
        .action(ArgAction::SetTrue)
        .help(help)
}

// The flag `--hex=bare`, with its help text. `clap`, which cuts a word at an equals sign, finds it as
// `--hex-bare`. Takes memory.
fn bare_digits<'a>(alloc: Global, help: &'a str) -> Result<Arg<'a>, AllocError>
    ensures { IfOk result (λ made. (rule_of made ≡ bare_flag) × (made.global ≡ false)) }
{
    let bare = flag(alloc, "hex-bare", help);
    bare.long("hex=bare").alias("hex-bare")
}

// The option `--max-nest`, whose value is a number from 0 to 32, with its help text.
fn max_nest_option<'a>(alloc: Global) -> Arg<'a>
    ensures rule { rule_of result ≡ max_nest }
    ensures local { result.global ≡ false }
{
    let nest = text_option(alloc, "max-nest", help::NEST, help::MAX_NEST);
    nest.value_parser(value_parser!(u32).range(0..=i64::from(NEST_CAP)))
}

// The option `--style`, whose value is one of these names, with its help text.
fn style_choice<'a>(alloc: Global, styles: &'a [&'a str]) -> Arg<'a>
    ensures rule { rule_of result ≡ style_option styles.entry }
    ensures local { result.global ≡ false }
{
    text_option(alloc, "style", "STYLE", help::STYLE).value_parser(styles)
}

// The option `--precision`, whose value is a number from -8 to 7, with its help text.
fn precision_choice<'a>(alloc: Global) -> Arg<'a>
    ensures rule { rule_of result ≡ precision_option }
    ensures local { result.global ≡ false }
{
    text_option(alloc, "precision", help::DECIMALS, help::PRECISION).value_parser(value_parser!(
        i8
    ).range(-8..=7))
}

// The option `--null`, which may be given several times, with its help text.
fn null_choice<'a>(alloc: Global) -> Arg<'a>
    ensures rule { rule_of result ≡ null_option }
    ensures local { result.global ≡ false }
{
    text_option(alloc, "null", "WORD", help::NULL).action(ArgAction::Append)
}

// The option `--output` or `-o`, whose value is any text, with its help text.
fn output_choice<'a>(alloc: Global) -> Arg<'a>
    ensures rule { rule_of result ≡ output_option }
    ensures local { result.global ≡ false }
{
    text_option(alloc, "output", "FILE", help::OUTPUT).short('o')
}

// The word for a file, with its help text.
fn file_argument<'a>(alloc: Global) -> Arg<'a>
    ensures rule { rule_of result ≡ file_word }
    ensures local { result.global ≡ false }
{
    Arg::new(alloc, "file").value_name("FILE").help(help::INPUT)
}

// A subcommand with this name, help text and usage, and without options.
fn subcommand<'a>(alloc: Global, name: &'a str, about: &'a str, usage: &'a str) -> Command<'a>
    ensures app { app_of result ≡ new_app name.entry.now }
    ensures local { (out-Command result).has_globals ≡ false }
{
    Command::new(alloc, name)
        .about(about)
        .override_usage(usage)
        .after_help(help::ELSEWHERE)
}

// A subcommand that also has `--output` and the word for a file.
fn with_file_words<'a>(alloc: Global, command: Command<'a>) -> Result<Command<'a>, AllocError>
    ensures shape { IfOk result (λ made. shape_of made ≡ with_files (app_of command.entry)) }
    ensures local { (out-Command command.entry).has_globals ≡ false
        → IfOk result (λ made. (out-Command made).has_globals ≡ false) }
{
    command.arg(output_choice(alloc))?.arg(file_argument(alloc))
}

// The subcommand for a conversion, with its name, its help text and the option `--max-nest`.
fn conversion_command<'a>(
    alloc: Global,
    name: &'a str,
    about: &'a str,
    usage: &'a str,
) -> Result<Command<'a>, AllocError>
    ensures app { IfOk result (λ command. app_of command ≡ conversion_app name.entry.now) }
    ensures local { IfOk result (λ command. (out-Command command).has_globals ≡ false) }
{
    subcommand(alloc, name, about, usage).arg(max_nest_option(alloc))
}

// A subcommand that also has the options that name a column and its precision.
fn with_column_options<'a>(alloc: Global, command: Command<'a>) -> Result<Command<'a>, AllocError>
    ensures app { IfOk result (λ made. app_of made ≡ with_column (app_of command.entry)) }
    ensures local { (out-Command command.entry).has_globals ≡ false
        → IfOk result (λ made. (out-Command made).has_globals ≡ false) }
{
    let column = text_option(alloc, "column", "NAME", help::COLUMN);
    command.arg(column)?.arg(precision_choice(alloc))
}

// A subcommand that also has the option `--null`.
fn with_null<'a>(alloc: Global, command: Command<'a>) -> Result<Command<'a>, AllocError>
    ensures app { IfOk result (λ made. app_of made ≡ with_rule (app_of command.entry) null_option) }
    ensures local { (out-Command command.entry).has_globals ≡ false
        → IfOk result (λ made. (out-Command made).has_globals ≡ false) }
{
    command.arg(null_choice(alloc))
}

// A subcommand that also has an option with this name, whose value is any text, with its help text.
fn with_text_option<'a>(
    alloc: Global,
    command: Command<'a>,
    name: &'a str,
    value: &'a str,
    help: &'a str,
) -> Result<Command<'a>, AllocError>
    ensures app { IfOk result (λ made. app_of made
        ≡ with_rule (app_of command.entry) (text_option name.entry.now)) }
    ensures local { (out-Command command.entry).has_globals ≡ false
        → IfOk result (λ made. (out-Command made).has_globals ≡ false) }
{
    command.arg(text_option(alloc, name, value, help))
}

// A subcommand that also has a flag with this name, with its help text.
fn with_flag<'a>(
    alloc: Global,
    command: Command<'a>,
    name: &'a str,
    help: &'a str,
) -> Result<Command<'a>, AllocError>
    ensures app { IfOk result (λ made. app_of made ≡ with_rule (app_of command.entry) (flag name.entry.now)) }
    ensures local { (out-Command command.entry).has_globals ≡ false
        → IfOk result (λ made. (out-Command made).has_globals ≡ false) }
{
    command.arg(flag(alloc, name, help))
}

// A subcommand that also has the flag `--hex=bare`.
fn with_bare<'a>(
    alloc: Global,
    command: Command<'a>,
    help: &'a str,
) -> Result<Command<'a>, AllocError>
    ensures app { IfOk result (λ made. app_of made ≡ with_rule (app_of command.entry) bare_flag) }
    ensures local { (out-Command command.entry).has_globals ≡ false
        → IfOk result (λ made. (out-Command made).has_globals ≡ false) }
{
    let bare = bare_digits(alloc, help)?;
    command.arg(bare)
}

// A subcommand that also has the flags about digits, with these help texts.
fn with_digits<'a>(
    alloc: Global,
    command: Command<'a>,
    hex: &'a str,
    bare: &'a str,
) -> Result<Command<'a>, AllocError>
    ensures app { IfOk result (λ made. app_of made ≡ with_digits (app_of command.entry)) }
    ensures local { (out-Command command.entry).has_globals ≡ false
        → IfOk result (λ made. (out-Command made).has_globals ≡ false) }
{
    let command = with_flag(alloc, command, "hex", hex)?;
    with_bare(alloc, command, bare)
}

// A subcommand that also has the options about GeoJSON.
fn with_geojson<'a>(alloc: Global, command: Command<'a>) -> Result<Command<'a>, AllocError>
    ensures app { IfOk result (λ made. app_of made ≡ with_geojson (app_of command.entry)) }
    ensures local { (out-Command command.entry).has_globals ≡ false
        → IfOk result (λ made. (out-Command made).has_globals ≡ false) }
{
    let command = with_flag(alloc, command, "geojson", help::GEOJSON)?;
    with_flag(alloc, command, "collection", help::COLLECTION)
}

// A subcommand that also has the options about the fields of a CSV.
fn with_field_options<'a>(alloc: Global, command: Command<'a>) -> Result<Command<'a>, AllocError>
    ensures app { IfOk result (λ made. app_of made ≡ with_fields (app_of command.entry)) }
    ensures local { (out-Command command.entry).has_globals ≡ false
        → IfOk result (λ made. (out-Command made).has_globals ≡ false) }
{
    let command = with_null(alloc, command)?;
    with_text_option(alloc, command, "delimiter", "C", help::DELIMITER)
}

// The subcommand `pack` with the options `--max-nest` and `--style`, whose value is one of these
// names, those about a column, and with files.
fn pack_command<'a>(alloc: Global, styles: &'a [&'a str]) -> Result<Command<'a>, AllocError>
    ensures shape { IfOk result (λ command. shape_of command ≡ pack_shape styles.entry) }
    ensures local { IfOk result (λ command. (out-Command command).has_globals ≡ false) }
{
    let style = style_choice(alloc, styles);
    let command = conversion_command(alloc, "pack", help::PACK, help::CALL_PACK)?.arg(style)?;
    let command = with_column_options(alloc, command)?;
    let command = with_text_option(alloc, command, "ids", "KEY", help::IDS)?;
    let command = with_digits(alloc, command, help::HEX, help::BARE)?;
    let command = with_field_options(alloc, command)?;
    with_file_words(alloc, command)
}

// The subcommand `unpack` with the options `--max-nest`, `--column` and `--delimiter`, those about
// digits and GeoJSON, and files.
fn unpack_command<'a>(alloc: Global) -> Result<Command<'a>, AllocError>
    ensures shape { IfOk result (λ command. shape_of command ≡ unpack_shape) }
    ensures local { IfOk result (λ command. (out-Command command).has_globals ≡ false) }
{
    let column = text_option(alloc, "column", "NAME", help::UNPACK_COLUMN);
    let delimiter = text_option(alloc, "delimiter", "C", help::DELIMITER);
    let command = conversion_command(alloc, "unpack", help::UNPACK, help::CALL_UNPACK)?;
    let command = command.arg(column)?.arg(delimiter)?;
    let command = with_digits(alloc, command, help::UNPACK_HEX, help::UNPACK_BARE)?;
    let command = with_geojson(alloc, command)?;
    with_file_words(alloc, command)
}

// The subcommand `show` with the option `--max-nest` and files.
fn show_command<'a>(alloc: Global) -> Result<Command<'a>, AllocError>
    ensures shape { IfOk result (λ command. shape_of command ≡ conversion_shape (codes "show")) }
    ensures local { IfOk result (λ command. (out-Command command).has_globals ≡ false) }
{
    let command = conversion_command(alloc, "show", help::SHOW, help::CALL_SHOW)?;
    with_file_words(alloc, command)
}

// The command `polytwkb` with its help text and usage, without version and subcommands.
fn described_command<'a>(alloc: Global) -> Command<'a>
    ensures app { app_of result ≡ new_app (codes "polytwkb") }
    ensures local { (out-Command result).has_globals ≡ false }
{
    Command::new(alloc, "polytwkb")
        .about(help::PROGRAM)
        .override_usage(help::CALL_PROGRAM)
        .after_long_help(help::MORE)
}

// The command `polytwkb` with its help text and version, which requires a subcommand, but has none
// yet.
fn bare_command<'a>(alloc: Global) -> Command<'a>
    ensures app { app_of result ≡ bare_app }
    ensures local { (out-Command result).has_globals ≡ false }
{
    described_command(alloc)
        .version(VERSION)
        .subcommand_required(true)
        .disable_help_subcommand(true)
}

// The command `polytwkb` with only the subcommand `pack`, whose styles have these names.
fn packing_command<'a>(alloc: Global, styles: &'a [&'a str]) -> Result<Command<'a>, AllocError>
    ensures { IfOk result (λ command. app_of command ≡ with_subcommand bare_app (pack_shape styles.entry)) }
{
    let pack = pack_command(alloc, styles)?;
    bare_command(alloc).subcommand(pack)
}

// A command with one more subcommand, `unpack`.
fn with_unpack<'a>(alloc: Global, program: Command<'a>) -> Result<Command<'a>, AllocError>
    ensures { IfOk result (λ command. app_of command ≡ with_subcommand (app_of program.entry) unpack_shape) }
{
    let unpack = unpack_command(alloc)?;
    program.subcommand(unpack)
}

// A command with one more subcommand, `show`.
fn with_show<'a>(alloc: Global, program: Command<'a>) -> Result<Command<'a>, AllocError>
    ensures { IfOk result (λ command. app_of command ≡ with_subcommand (app_of program.entry)
        (conversion_shape (codes "show"))) }
{
    let show = show_command(alloc)?;
    program.subcommand(show)
}

// The command `polytwkb`, which requires one of its subcommands `pack`, whose styles have these
// names, `unpack` and `show`.
#[tactic(auto, unfolding(crate::specs::Arguments::command_line))]
pub(crate) fn command<'a>(alloc: Global, styles: &'a [&'a str]) -> Result<Command<'a>, AllocError>
    ensures { IfOk result (λ command. app_of command ≡ command_line styles.entry) }
{
    let packing = packing_command(alloc, styles)?;
    let unpacking = with_unpack(alloc, packing)?;
    with_show(alloc, unpacking)
}

//! The faults by their codes: the number and the text of each, which appear only here.
ghost use Rattle.std.specs.Prelude.{◌≡◌};
ghost use Rattle.srcset.specs.declared.code.Code.{Code};
ghost use Rattle.srcset.specs.Codes.{number_of, text_of, code_with, message_of};
ghost use Rattle.srcset.specs.inside.CodeGroups.{code_in_group};

/// The kind of error, one variant per fault. A number's first digit gives the kind of rule.
#[derive(Clone, Copy, Debug, PartialEq, Eq)]
pub enum Code {
    /// 101: file name given twice.
    FileGivenTwice,
    /// 102: bad file name.
    BadFileName,
    /// 103: main file not given.
    NoMainFile,
    /// 111: file does not end in a newline.
    NoFinalNewline,
    /// 112: file ends in a splice.
    FinalSplice,
    /// 113: comment not closed.
    OpenComment,
    /// 201: macro redefined differently.
    MacroRedefined,
    /// 202: bad macro definition.
    BadMacroDefinition,
    /// 203: # not before a parameter.
    HashWithoutParameter,
    /// 204: ## at an end of a replacement.
    PasteAtAnEnd,
    /// 205: reserved macro name.
    ReservedMacroName,
    /// 206: ## makes no token.
    PasteMakesNoToken,
    /// 207: # makes no string literal.
    HashMakesNoString,
    /// 208: __VA_ARGS__ outside its macro.
    VariableArgumentsOutside,
    /// 211: macro arguments not closed.
    OpenMacroArguments,
    /// 212: wrong number of macro arguments.
    MacroArgumentCount,
    /// 213: function-like macro name ends its run.
    MacroNameEndsRun,
    /// 214: no variable argument.
    NoVariableArgument,
    /// 221: not a constant expression in #if.
    NotConstantCondition,
    /// 222: #if arithmetic out of range.
    ConditionOutOfRange,
    /// 223: defined made by a macro.
    DefinedMadeByMacro,
    /// 231: unbalanced conditional.
    UnbalancedConditional,
    /// 232: include file not found.
    IncludeNotFound,
    /// 233: bad directive.
    BadDirective,
    /// 234: #error.
    ErrorDirective,
    /// 235: bad #line.
    BadLineDirective,
    /// 301: not a token.
    NotAToken,
    /// 302: bad escape or byte in a literal.
    BadLiteral,
    /// 303: constant out of range.
    ConstantOutOfRange,
    /// 401: syntax error.
    SyntaxError,
    /// 501: not a constant expression.
    NotConstantExpression,
    /// 502: constant expression out of range.
    ConstantExpressionOutOfRange,
    /// 503: constant division by zero.
    ConstantDivisionByZero,
    /// 511: bad type specifiers.
    BadTypeSpecifiers,
    /// 512: bad storage class.
    BadStorageClass,
    /// 513: declaration declares nothing.
    DeclaresNothing,
    /// 514: name declared twice in a scope.
    NameDeclaredTwice,
    /// 515: redeclared with another type.
    RedeclaredWithAnotherType,
    /// 516: linkage conflict.
    LinkageConflict,
    /// 517: defined twice.
    DefinedTwice,
    /// 518: bad array type.
    BadArrayType,
    /// 519: object of incomplete type.
    IncompleteObject,
    /// 520: too many initialisers.
    TooManyInitialisers,
    /// 521: bad initialiser form.
    BadInitialiserForm,
    /// 523: static assertion failed.
    StaticAssertionFailed,
    /// 524: enumerator does not fit int.
    EnumeratorOutOfRange,
    /// 525: bad enum tag.
    BadEnumTag,
    /// 526: void parameter.
    VoidParameter,
    /// 527: parameter without a name.
    UnnamedParameter,
    /// 528: undeclared name.
    UndeclaredName,
    /// 529: bad subscript.
    BadSubscript,
    /// 530: called name is no function.
    CalledNoFunction,
    /// 531: wrong number of arguments.
    ArgumentCount,
    /// 532: argument of wrong type.
    ArgumentType,
    /// 533: not a modifiable lvalue.
    NotModifiable,
    /// 534: void value assigned.
    VoidAssigned,
    /// 535: void operand.
    VoidOperand,
    /// 536: bad sizeof operand.
    BadSizeofOperand,
    /// 537: bad cast.
    BadCast,
    /// 538: arms of ?: do not match.
    UnmatchedArms,
    /// 539: controlling expression is void.
    VoidControl,
    /// 540: case or default twice.
    LabelTwice,
    /// 541: case or default outside switch.
    LabelOutsideSwitch,
    /// 542: break or continue outside its statement.
    JumpOutside,
    /// 543: return does not match its function.
    ReturnMismatch,
    /// 544: bad declaration in for.
    BadForDeclaration,
    /// 551: no int main(void).
    NoMain,
    /// 552: used but not defined.
    UsedUndefined,
    /// 553: built-in defined again.
    BuiltInDefined,
    /// 601: left out: float, double, _Complex, _Imaginary.
    LeftOutFloating,
    /// 602: left out: struct, union, typedef.
    LeftOutStructures,
    /// 603: left out: goto.
    LeftOutGoto,
    /// 604: left out: volatile, restrict, _Atomic, _Thread_local, auto, register.
    LeftOutQualifiers,
    /// 605: left out: inline, _Noreturn, _Alignas, _Alignof, _Generic.
    LeftOutSpecifiers,
    /// 606: left out: floating constant.
    LeftOutFloatingConstant,
    /// 607: left out: prefixed or multi-character literal.
    LeftOutLiteral,
    /// 608: left out: _Pragma, __func__.
    LeftOutPragmaOperator,
    /// 609: left out: long long constant.
    LeftOutLongLong,
    /// 620: left out: array or function as a value.
    LeftOutArrayValue,
    /// 621: left out: reversed subscript.
    LeftOutReversedSubscript,
    /// 622: left out: brace elision.
    LeftOutBraceElision,
    /// 623: left out: label not directly in its switch.
    LeftOutLabel,
    /// 701: limit: file size.
    FileSizeLimit,
    /// 702: limit: files.
    FileLimit,
    /// 703: limit: token length.
    TokenLengthLimit,
    /// 704: limit: macros.
    MacroLimit,
    /// 705: limit: macro parameters.
    MacroParameterLimit,
    /// 706: limit: macro replacements.
    ReplacementLimit,
    /// 707: limit: nesting of includes or conditionals.
    NestingLimit,
    /// 708: limit: tokens.
    TokenLimit,
    /// 709: limit: depth.
    DepthLimit,
    /// 710: limit: nodes of a function.
    FunctionNodeLimit,
    /// 711: limit: nodes of the program.
    ProgramNodeLimit,
    /// 712: limit: object size.
    ObjectSizeLimit,
    /// 713: limit: static objects.
    StaticSizeLimit,
    /// 714: limit: function weight.
    WeightLimit,
    /// 715: limit: functions.
    FunctionLimit,
    /// 716: limit: jump distance.
    JumpLimit,
    /// 801: out of memory.
    OutOfMemory,
    /// 802: cannot read.
    CannotRead,
    /// 803: cannot write.
    CannotWrite,
    /// 901: ELF header too short.
    ShortHeader,
    /// 902: not ELF32 little endian.
    NotElf32,
    /// 903: not an executable.
    NotExecutable,
    /// 904: not RISC-V.
    NotRiscV,
    /// 905: bad program header.
    BadProgramHeader,
    /// 906: segments overlap.
    SegmentsOverlap,
    /// 907: too much memory.
    TooMuchMemory,
}

impl Code {
    /// The number, 101 to 907. No other code has it.
    pub fn number(self) -> u16
        ensures value { result ≡ number_of self }
        ensures sole { (other : Code) → number_of other ≡ number_of self → other ≡ self }
    {
        match self {
            Code::FileGivenTwice => 101,
            Code::BadFileName => 102,
            Code::NoMainFile => 103,
            Code::NoFinalNewline => 111,
            Code::FinalSplice => 112,
            Code::OpenComment => 113,
            Code::MacroRedefined => 201,
            Code::BadMacroDefinition => 202,
            Code::HashWithoutParameter => 203,
            Code::PasteAtAnEnd => 204,
            Code::ReservedMacroName => 205,
            Code::PasteMakesNoToken => 206,
            Code::HashMakesNoString => 207,
            Code::VariableArgumentsOutside => 208,
            Code::OpenMacroArguments => 211,
            Code::MacroArgumentCount => 212,
            Code::MacroNameEndsRun => 213,
            Code::NoVariableArgument => 214,
            Code::NotConstantCondition => 221,
            Code::ConditionOutOfRange => 222,
            Code::DefinedMadeByMacro => 223,
            Code::UnbalancedConditional => 231,
            Code::IncludeNotFound => 232,
            Code::BadDirective => 233,
            Code::ErrorDirective => 234,
            Code::BadLineDirective => 235,
            Code::NotAToken => 301,
            Code::BadLiteral => 302,
            Code::ConstantOutOfRange => 303,
            Code::SyntaxError => 401,
            Code::NotConstantExpression => 501,
            Code::ConstantExpressionOutOfRange => 502,
            Code::ConstantDivisionByZero => 503,
            Code::BadTypeSpecifiers => 511,
            Code::BadStorageClass => 512,
            Code::DeclaresNothing => 513,
            Code::NameDeclaredTwice => 514,
            Code::RedeclaredWithAnotherType => 515,
            Code::LinkageConflict => 516,
            Code::DefinedTwice => 517,
            Code::BadArrayType => 518,
            Code::IncompleteObject => 519,
            Code::TooManyInitialisers => 520,
            Code::BadInitialiserForm => 521,
            Code::StaticAssertionFailed => 523,
            Code::EnumeratorOutOfRange => 524,
            Code::BadEnumTag => 525,
            Code::VoidParameter => 526,
            Code::UnnamedParameter => 527,
            Code::UndeclaredName => 528,
            Code::BadSubscript => 529,
            Code::CalledNoFunction => 530,
            Code::ArgumentCount => 531,
            Code::ArgumentType => 532,
            Code::NotModifiable => 533,
            Code::VoidAssigned => 534,
            Code::VoidOperand => 535,
            Code::BadSizeofOperand => 536,
            Code::BadCast => 537,
            Code::UnmatchedArms => 538,
            Code::VoidControl => 539,
            Code::LabelTwice => 540,
            Code::LabelOutsideSwitch => 541,
            Code::JumpOutside => 542,
            Code::ReturnMismatch => 543,
            Code::BadForDeclaration => 544,
            Code::NoMain => 551,
            Code::UsedUndefined => 552,
            Code::BuiltInDefined => 553,
            Code::LeftOutFloating => 601,
            Code::LeftOutStructures => 602,
            Code::LeftOutGoto => 603,
            Code::LeftOutQualifiers => 604,
            Code::LeftOutSpecifiers => 605,
            Code::LeftOutFloatingConstant => 606,
            Code::LeftOutLiteral => 607,
            Code::LeftOutPragmaOperator => 608,
            Code::LeftOutLongLong => 609,
            Code::LeftOutArrayValue => 620,
            Code::LeftOutReversedSubscript => 621,
            Code::LeftOutBraceElision => 622,
            Code::LeftOutLabel => 623,
            Code::FileSizeLimit => 701,
            Code::FileLimit => 702,
            Code::TokenLengthLimit => 703,
            Code::MacroLimit => 704,
            Code::MacroParameterLimit => 705,
            Code::ReplacementLimit => 706,
            Code::NestingLimit => 707,
            Code::TokenLimit => 708,
            Code::DepthLimit => 709,
            Code::FunctionNodeLimit => 710,
            Code::ProgramNodeLimit => 711,
            Code::ObjectSizeLimit => 712,
            Code::StaticSizeLimit => 713,
            Code::WeightLimit => 714,
            Code::FunctionLimit => 715,
            Code::JumpLimit => 716,
            Code::OutOfMemory => 801,
            Code::CannotRead => 802,
            Code::CannotWrite => 803,
            Code::ShortHeader => 901,
            Code::NotElf32 => 902,
            Code::NotExecutable => 903,
            Code::NotRiscV => 904,
            Code::BadProgramHeader => 905,
            Code::SegmentsOverlap => 906,
            Code::TooMuchMemory => 907,
        }
    }

    /// The text of a fault line after the number.
    pub fn message(self) -> &'static str
        ensures { result.now ≡ text_of self }
    {
        match self {
            Code::FileGivenTwice => "file name given twice",
            Code::BadFileName => "bad file name",
            Code::NoMainFile => "main file not given",
            Code::NoFinalNewline => "file does not end in a newline",
            Code::FinalSplice => "file ends in a splice",
            Code::OpenComment => "comment not closed",
            Code::MacroRedefined => "macro redefined differently",
            Code::BadMacroDefinition => "bad macro definition",
            Code::HashWithoutParameter => "# not before a parameter",
            Code::PasteAtAnEnd => "## at an end of a replacement",
            Code::ReservedMacroName => "reserved macro name",
            Code::PasteMakesNoToken => "## makes no token",
            Code::HashMakesNoString => "# makes no string literal",
            Code::VariableArgumentsOutside => "__VA_ARGS__ outside its macro",
            Code::OpenMacroArguments => "macro arguments not closed",
            Code::MacroArgumentCount => "wrong number of macro arguments",
            Code::MacroNameEndsRun => "function-like macro name ends its run",
            Code::NoVariableArgument => "no variable argument",
            Code::NotConstantCondition => "not a constant expression in #if",
            Code::ConditionOutOfRange => "#if arithmetic out of range",
            Code::DefinedMadeByMacro => "defined made by a macro",
            Code::UnbalancedConditional => "unbalanced conditional",
            Code::IncludeNotFound => "include file not found",
            Code::BadDirective => "bad directive",
            Code::ErrorDirective => "#error",
            Code::BadLineDirective => "bad #line",
            Code::NotAToken => "not a token",
            Code::BadLiteral => "bad escape or byte in a literal",
            Code::ConstantOutOfRange => "constant out of range",
            Code::SyntaxError => "syntax error",
            Code::NotConstantExpression => "not a constant expression",
            Code::ConstantExpressionOutOfRange => "constant expression out of range",
            Code::ConstantDivisionByZero => "constant division by zero",
            Code::BadTypeSpecifiers => "bad type specifiers",
            Code::BadStorageClass => "bad storage class",
            Code::DeclaresNothing => "declaration declares nothing",
            Code::NameDeclaredTwice => "name declared twice in a scope",
            Code::RedeclaredWithAnotherType => "redeclared with another type",
            Code::LinkageConflict => "linkage conflict",
            Code::DefinedTwice => "defined twice",
            Code::BadArrayType => "bad array type",
            Code::IncompleteObject => "object of incomplete type",
            Code::TooManyInitialisers => "too many initialisers",
            Code::BadInitialiserForm => "bad initialiser form",
            Code::StaticAssertionFailed => "static assertion failed",
            Code::EnumeratorOutOfRange => "enumerator does not fit int",
            Code::BadEnumTag => "bad enum tag",
            Code::VoidParameter => "void parameter",
            Code::UnnamedParameter => "parameter without a name",
            Code::UndeclaredName => "undeclared name",
            Code::BadSubscript => "bad subscript",
            Code::CalledNoFunction => "called name is no function",
            Code::ArgumentCount => "wrong number of arguments",
            Code::ArgumentType => "argument of wrong type",
            Code::NotModifiable => "not a modifiable lvalue",
            Code::VoidAssigned => "void value assigned",
            Code::VoidOperand => "void operand",
            Code::BadSizeofOperand => "bad sizeof operand",
            Code::BadCast => "bad cast",
            Code::UnmatchedArms => "arms of ?: do not match",
            Code::VoidControl => "controlling expression is void",
            Code::LabelTwice => "case or default twice",
            Code::LabelOutsideSwitch => "case or default outside switch",
            Code::JumpOutside => "break or continue outside its statement",
            Code::ReturnMismatch => "return does not match its function",
            Code::BadForDeclaration => "bad declaration in for",
            Code::NoMain => "no int main(void)",
            Code::UsedUndefined => "used but not defined",
            Code::BuiltInDefined => "built-in defined again",
            Code::LeftOutFloating => "left out: float, double, _Complex, _Imaginary",
            Code::LeftOutStructures => "left out: struct, union, typedef",
            Code::LeftOutGoto => "left out: goto",
            Code::LeftOutQualifiers =>
                "left out: volatile, restrict, _Atomic, _Thread_local, auto, register",
            Code::LeftOutSpecifiers => "left out: inline, _Noreturn, _Alignas, _Alignof, _Generic",
            Code::LeftOutFloatingConstant => "left out: floating constant",
            Code::LeftOutLiteral => "left out: prefixed or multi-character literal",
            Code::LeftOutPragmaOperator => "left out: _Pragma, __func__",
            Code::LeftOutLongLong => "left out: long long constant",
            Code::LeftOutArrayValue => "left out: array or function as a value",
            Code::LeftOutReversedSubscript => "left out: reversed subscript",
            Code::LeftOutBraceElision => "left out: brace elision",
            Code::LeftOutLabel => "left out: label not directly in its switch",
            Code::FileSizeLimit => "limit: file size",
            Code::FileLimit => "limit: files",
            Code::TokenLengthLimit => "limit: token length",
            Code::MacroLimit => "limit: macros",
            Code::MacroParameterLimit => "limit: macro parameters",
            Code::ReplacementLimit => "limit: macro replacements",
            Code::NestingLimit => "limit: nesting of includes or conditionals",
            Code::TokenLimit => "limit: tokens",
            Code::DepthLimit => "limit: depth",
            Code::FunctionNodeLimit => "limit: nodes of a function",
            Code::ProgramNodeLimit => "limit: nodes of the program",
            Code::ObjectSizeLimit => "limit: object size",
            Code::StaticSizeLimit => "limit: static objects",
            Code::WeightLimit => "limit: function weight",
            Code::FunctionLimit => "limit: functions",
            Code::JumpLimit => "limit: jump distance",
            Code::OutOfMemory => "out of memory",
            Code::CannotRead => "cannot read",
            Code::CannotWrite => "cannot write",
            Code::ShortHeader => "ELF header too short",
            Code::NotElf32 => "not ELF32 little endian",
            Code::NotExecutable => "not an executable",
            Code::NotRiscV => "not RISC-V",
            Code::BadProgramHeader => "bad program header",
            Code::SegmentsOverlap => "segments overlap",
            Code::TooMuchMemory => "too much memory",
        }
    }

    /// The code with this number, or `None` where there is none.
    #[tactic(auto, using(crate::proofs::CodeLemmas::code_with_is_in_its_group))]
    pub fn with_number(number: u16) -> Option<Code>
        ensures { result ≡ code_with number }
    {
        match number / 100 {
            1 => file_code(number),
            2 => macro_code(number),
            3 => token_code(number),
            4 => syntax_code(number),
            5 => constraint_code(number),
            6 => profile_code(number),
            7 => limit_code(number),
            8 => system_code(number),
            9 => image_code(number),
            _ => None,
        }
    }
}

// Files, and phases 1 to 3 of translation (ISO/IEC 9899:2011 5.1.1.2).
#[tactic(auto, unfolding(crate::specs::Codes::all_codes, crate::specs::inside::CodeGroups::code_in_group))]
fn file_code(number: u16) -> Option<Code>
    ensures { result ≡ code_in_group 1 number }
{
    match number {
        101 => Some(Code::FileGivenTwice),
        102 => Some(Code::BadFileName),
        103 => Some(Code::NoMainFile),
        111 => Some(Code::NoFinalNewline),
        112 => Some(Code::FinalSplice),
        113 => Some(Code::OpenComment),
        _ => None,
    }
}

// Macros and directives (ISO/IEC 9899:2011 6.10).
#[tactic(auto, unfolding(crate::specs::Codes::all_codes, crate::specs::inside::CodeGroups::code_in_group))]
fn macro_code(number: u16) -> Option<Code>
    ensures { result ≡ code_in_group 2 number }
{
    match number {
        201 => Some(Code::MacroRedefined),
        202 => Some(Code::BadMacroDefinition),
        203 => Some(Code::HashWithoutParameter),
        204 => Some(Code::PasteAtAnEnd),
        205 => Some(Code::ReservedMacroName),
        206 => Some(Code::PasteMakesNoToken),
        207 => Some(Code::HashMakesNoString),
        208 => Some(Code::VariableArgumentsOutside),
        211 => Some(Code::OpenMacroArguments),
        212 => Some(Code::MacroArgumentCount),
        213 => Some(Code::MacroNameEndsRun),
        214 => Some(Code::NoVariableArgument),
        221 => Some(Code::NotConstantCondition),
        222 => Some(Code::ConditionOutOfRange),
        223 => Some(Code::DefinedMadeByMacro),
        231 => Some(Code::UnbalancedConditional),
        232 => Some(Code::IncludeNotFound),
        233 => Some(Code::BadDirective),
        234 => Some(Code::ErrorDirective),
        235 => Some(Code::BadLineDirective),
        _ => None,
    }
}

// Tokens (ISO/IEC 9899:2011 6.4).
#[tactic(auto, unfolding(crate::specs::Codes::all_codes, crate::specs::inside::CodeGroups::code_in_group))]
fn token_code(number: u16) -> Option<Code>
    ensures { result ≡ code_in_group 3 number }
{
    match number {
        301 => Some(Code::NotAToken),
        302 => Some(Code::BadLiteral),
        303 => Some(Code::ConstantOutOfRange),
        _ => None,
    }
}

// The grammar (ISO/IEC 9899:2011 annex A).
#[tactic(auto, unfolding(crate::specs::Codes::all_codes, crate::specs::inside::CodeGroups::code_in_group))]
fn syntax_code(number: u16) -> Option<Code>
    ensures { result ≡ code_in_group 4 number }
{
    match number {
        401 => Some(Code::SyntaxError),
        _ => None,
    }
}

// Constraints (ISO/IEC 9899:2011 6.5 to 6.9).
#[tactic(auto, unfolding(crate::specs::Codes::all_codes, crate::specs::inside::CodeGroups::code_in_group))]
fn constraint_code(number: u16) -> Option<Code>
    ensures { result ≡ code_in_group 5 number }
{
    match number {
        501 => Some(Code::NotConstantExpression),
        502 => Some(Code::ConstantExpressionOutOfRange),
        503 => Some(Code::ConstantDivisionByZero),
        511 => Some(Code::BadTypeSpecifiers),
        512 => Some(Code::BadStorageClass),
        513 => Some(Code::DeclaresNothing),
        514 => Some(Code::NameDeclaredTwice),
        515 => Some(Code::RedeclaredWithAnotherType),
        516 => Some(Code::LinkageConflict),
        517 => Some(Code::DefinedTwice),
        518 => Some(Code::BadArrayType),
        519 => Some(Code::IncompleteObject),
        520 => Some(Code::TooManyInitialisers),
        521 => Some(Code::BadInitialiserForm),
        523 => Some(Code::StaticAssertionFailed),
        524 => Some(Code::EnumeratorOutOfRange),
        525 => Some(Code::BadEnumTag),
        526 => Some(Code::VoidParameter),
        527 => Some(Code::UnnamedParameter),
        528 => Some(Code::UndeclaredName),
        529 => Some(Code::BadSubscript),
        530 => Some(Code::CalledNoFunction),
        531 => Some(Code::ArgumentCount),
        532 => Some(Code::ArgumentType),
        533 => Some(Code::NotModifiable),
        534 => Some(Code::VoidAssigned),
        535 => Some(Code::VoidOperand),
        536 => Some(Code::BadSizeofOperand),
        537 => Some(Code::BadCast),
        538 => Some(Code::UnmatchedArms),
        539 => Some(Code::VoidControl),
        540 => Some(Code::LabelTwice),
        541 => Some(Code::LabelOutsideSwitch),
        542 => Some(Code::JumpOutside),
        543 => Some(Code::ReturnMismatch),
        544 => Some(Code::BadForDeclaration),
        551 => Some(Code::NoMain),
        552 => Some(Code::UsedUndefined),
        553 => Some(Code::BuiltInDefined),
        _ => None,
    }
}

// The faults for parts of the language that the compiler leaves out.
#[tactic(auto, unfolding(crate::specs::Codes::all_codes, crate::specs::inside::CodeGroups::code_in_group))]
fn profile_code(number: u16) -> Option<Code>
    ensures { result ≡ code_in_group 6 number }
{
    match number {
        601 => Some(Code::LeftOutFloating),
        602 => Some(Code::LeftOutStructures),
        603 => Some(Code::LeftOutGoto),
        604 => Some(Code::LeftOutQualifiers),
        605 => Some(Code::LeftOutSpecifiers),
        606 => Some(Code::LeftOutFloatingConstant),
        607 => Some(Code::LeftOutLiteral),
        608 => Some(Code::LeftOutPragmaOperator),
        609 => Some(Code::LeftOutLongLong),
        620 => Some(Code::LeftOutArrayValue),
        621 => Some(Code::LeftOutReversedSubscript),
        622 => Some(Code::LeftOutBraceElision),
        623 => Some(Code::LeftOutLabel),
        _ => None,
    }
}

// Limits of the compiler (ISO/IEC 9899:2011 5.2.4.1).
#[tactic(auto, unfolding(crate::specs::Codes::all_codes, crate::specs::inside::CodeGroups::code_in_group))]
fn limit_code(number: u16) -> Option<Code>
    ensures { result ≡ code_in_group 7 number }
{
    match number {
        701 => Some(Code::FileSizeLimit),
        702 => Some(Code::FileLimit),
        703 => Some(Code::TokenLengthLimit),
        704 => Some(Code::MacroLimit),
        705 => Some(Code::MacroParameterLimit),
        706 => Some(Code::ReplacementLimit),
        707 => Some(Code::NestingLimit),
        708 => Some(Code::TokenLimit),
        709 => Some(Code::DepthLimit),
        710 => Some(Code::FunctionNodeLimit),
        711 => Some(Code::ProgramNodeLimit),
        712 => Some(Code::ObjectSizeLimit),
        713 => Some(Code::StaticSizeLimit),
        714 => Some(Code::WeightLimit),
        715 => Some(Code::FunctionLimit),
        716 => Some(Code::JumpLimit),
        _ => None,
    }
}

// Memory, input and output.
#[tactic(auto, unfolding(crate::specs::Codes::all_codes, crate::specs::inside::CodeGroups::code_in_group))]
fn system_code(number: u16) -> Option<Code>
    ensures { result ≡ code_in_group 8 number }
{
    match number {
        801 => Some(Code::OutOfMemory),
        802 => Some(Code::CannotRead),
        803 => Some(Code::CannotWrite),
        _ => None,
    }
}

// Executable files (System V gABI, chapters 4 and 5).
#[tactic(auto, unfolding(crate::specs::Codes::all_codes, crate::specs::inside::CodeGroups::code_in_group))]
fn image_code(number: u16) -> Option<Code>
    ensures { result ≡ code_in_group 9 number }
{
    match number {
        901 => Some(Code::ShortHeader),
        902 => Some(Code::NotElf32),
        903 => Some(Code::NotExecutable),
        904 => Some(Code::NotRiscV),
        905 => Some(Code::BadProgramHeader),
        906 => Some(Code::SegmentsOverlap),
        907 => Some(Code::TooMuchMemory),
        _ => None,
    }
}

/// The text of the code with this number, empty for all other numbers.
pub fn message(number: u16) -> &'static str
    ensures { result.now ≡ message_of number }
{
    match Code::with_number(number) {
        Some(code) => code.message(),
        None => "",
    }
}

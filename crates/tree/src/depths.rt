//! How deep a tree is: the greatest number of nodes and of pairs of parentheses on a path downwards.
//!
//! Each computation of a depth traverses the tree once, and its host recursion is no deeper than twice the tree. A depth
//! saturates at 2^32 - 1.
#![tactic(auto, using(crate::proofs::Sums::capped32_none, crate::proofs::Sums::capped32_one))]

ghost use Rattle.std.specs.Prelude.{◌≡◌, ◌+◌, ℕ, max, map};
ghost use Rattle.tree.specs.Capped.{capped32};
ghost use Rattle.tree.specs.Counts.{depth, depths, type_depth, option_depth, sizes_depth, enumerator_depth, parameter_depth, init_depth, inits_depth, option_init_depth, enumerators_depth, specifier_depth, specifiers_depth, parameters_depth, item_depth, items_depth, declaration_depth, start_depth, stmt_depth, piece_depth, pieces_depth, function_depth, external_depth, unit_depth};
ghost use Rattle.tree.specs.View.{tree_of, type_of, trees_of, option_tree, init_of, inits_of, option_init, enumerator_of, specifier_of, parameter_of, item_of, declaration_of, start_of, stmt_of, piece_of, pieces_of, function_of, external_of, unit_of};

use crate::declaration::{
    Declaration, Enumerator, FunctionDeclarator, Initialiser, Item, ObjectDeclarator, Parameter,
    Specifier,
};
use crate::expression::{Expr, TypeName};
use crate::statement::{BlockItem, ForStart, Stmt};
use crate::unit::{External, Function, Unit};

/// The greater of the two.
fn greater(a: u32, b: u32) -> u32
    ensures { (x y : ℕ) → a ≡ capped32 x → b ≡ capped32 y → result ≡ capped32 (max x y) }
{
    if a < b { b } else { a }
}

/// One more, or 2^32 - 1 where it is greater.
fn deeper(a: u32) -> u32
    ensures { (x : ℕ) → a ≡ capped32 x → result ≡ capped32 (x + 1) }
{
    a.saturating_add(1)
}

// ---- expressions

#[cycle(expression_depth)]
fn expressions_depth(expressions: &[Expr]) -> u32
    ensures { result ≡ capped32 (depths (trees_of (map tree_of expressions.now))) }
{
    let mut deepest = 0;
    for expression in expressions {
        deepest = greater(deepest, expression.depth());
    }
    deepest
}

impl TypeName {
    /// The depth of the sizes in a type name (ISO/IEC 9899:2011 6.7.7).
    #[cycle(expression_depth)]
    pub fn depth(&self) -> u32
        ensures { result ≡ capped32 (type_depth (type_of self.now)) }
    {
        expressions_depth(&self.sizes)
    }
}

impl Expr {
    /// The depth of an expression (6.5).
    #[cycle(expression_depth)]
    pub fn depth(&self) -> u32
        ensures { result ≡ capped32 (depth (tree_of self.now)) }
    {
        match self {
            Expr::Name(_, _) => 1,
            Expr::Constant(_, _, _) => 1,
            Expr::StringLiteral(_, _) => 1,
            Expr::Paren(inner) => deeper(inner.depth()),
            Expr::Call(_, _, arguments) => deeper(expressions_depth(arguments)),
            Expr::Subscript(_, array, index) => deeper(greater(array.depth(), index.depth())),
            Expr::After(_, _, operand) => deeper(operand.depth()),
            Expr::Before(_, _, operand) => deeper(operand.depth()),
            Expr::Prefix(_, _, operand) => deeper(operand.depth()),
            Expr::SizeofExpr(_, operand) => deeper(operand.depth()),
            Expr::SizeofType(_, name) => deeper(name.depth()),
            Expr::Cast(_, name, operand) => deeper(greater(name.depth(), operand.depth())),
            Expr::Binary(_, _, left, right) => deeper(greater(left.depth(), right.depth())),
            Expr::Conditional(_, test, yes, no) => deeper(greater(
                test.depth(),
                greater(yes.depth(), no.depth()),
            )),
            Expr::Assign(_, _, place, value) => deeper(greater(place.depth(), value.depth())),
        }
    }
}

fn option_expression_depth(expression: &Option<Expr>) -> u32
    ensures { result ≡ capped32 (option_depth (option_tree expression.now)) }
{
    match expression {
        Some(expression) => expression.depth(),
        None => 0,
    }
}

fn sizes_depth(sizes: &[Option<Expr>]) -> u32
    ensures { result ≡ capped32 (sizes_depth (map option_tree sizes.now)) }
{
    let mut deepest = 0;
    for size in sizes {
        deepest = greater(deepest, option_expression_depth(size));
    }
    deepest
}

// ---- declarations

#[cycle(initialiser_depth)]
fn initialisers_depth(initialisers: &[Initialiser]) -> u32
    ensures { result ≡ capped32 (inits_depth (inits_of (map init_of initialisers.now))) }
{
    let mut deepest = 0;
    for initialiser in initialisers {
        deepest = greater(deepest, initialiser.depth());
    }
    deepest
}

impl Initialiser {
    /// The depth of an initialiser (6.7.9).
    #[cycle(initialiser_depth)]
    pub fn depth(&self) -> u32
        ensures { result ≡ capped32 (init_depth (init_of self.now)) }
    {
        match self {
            Initialiser::One(expression) => expression.depth(),
            Initialiser::List(_, parts) => deeper(initialisers_depth(parts)),
        }
    }
}

fn option_initialiser_depth(initialiser: &Option<Initialiser>) -> u32
    ensures { result ≡ capped32 (option_init_depth (option_init initialiser.now)) }
{
    match initialiser {
        Some(initialiser) => initialiser.depth(),
        None => 0,
    }
}

fn enumerator_depth(enumerator: &Enumerator) -> u32
    ensures { result ≡ capped32 (enumerator_depth (enumerator_of enumerator.now)) }
{
    deeper(option_expression_depth(&enumerator.value))
}

fn enumerators_depth(enumerators: &[Enumerator]) -> u32
    ensures { result ≡ capped32 (enumerators_depth (map enumerator_of enumerators.now)) }
{
    let mut deepest = 0;
    for enumerator in enumerators {
        deepest = greater(deepest, enumerator_depth(enumerator));
    }
    deepest
}

fn specifier_depth(specifier: &Specifier) -> u32
    ensures { result ≡ capped32 (specifier_depth (specifier_of specifier.now)) }
{
    match specifier {
        Specifier::Extern => 0,
        Specifier::Static => 0,
        Specifier::Plain(_) => 0,
        Specifier::Enumerators(_, list) => enumerators_depth(list),
    }
}

fn specifiers_depth(specifiers: &[Specifier]) -> u32
    ensures { result ≡ capped32 (specifiers_depth (map specifier_of specifiers.now)) }
{
    let mut deepest = 0;
    for specifier in specifiers {
        deepest = greater(deepest, specifier_depth(specifier));
    }
    deepest
}

fn parameter_depth(parameter: &Parameter) -> u32
    ensures { result ≡ capped32 (parameter_depth (parameter_of parameter.now)) }
{
    deeper(sizes_depth(&parameter.sizes))
}

fn parameters_depth(parameters: &[Parameter]) -> u32
    ensures { result ≡ capped32 (parameters_depth (map parameter_of parameters.now)) }
{
    let mut deepest = 0;
    for parameter in parameters {
        deepest = greater(deepest, parameter_depth(parameter));
    }
    deepest
}

fn item_depth(item: &Item) -> u32
    ensures { result ≡ capped32 (item_depth (item_of item.now)) }
{
    match item {
        Item::Object(object) => deeper(greater(
            sizes_depth(&object.sizes),
            option_initialiser_depth(&object.initialiser),
        )),
        Item::Function(function) => deeper(parameters_depth(&function.parameters)),
    }
}

fn items_depth(items: &[Item]) -> u32
    ensures { result ≡ capped32 (items_depth (map item_of items.now)) }
{
    let mut deepest = 0;
    for item in items {
        deepest = greater(deepest, item_depth(item));
    }
    deepest
}

impl Declaration {
    /// The depth of a declaration (6.7) or a static assertion (6.7.10).
    pub fn depth(&self) -> u32
        ensures { result ≡ capped32 (declaration_depth (declaration_of self.now)) }
    {
        match self {
            Declaration::Declared(specifiers, items) => greater(
                specifiers_depth(&specifiers.list),
                items_depth(items),
            ),
            Declaration::Assertion(_, condition, _) => deeper(condition.depth()),
        }
    }
}

// ---- statements

fn start_depth(start: &ForStart) -> u32
    ensures { result ≡ capped32 (start_depth (start_of start.now)) }
{
    match start {
        ForStart::Expression(expression) => option_expression_depth(expression),
        ForStart::Declaration(declaration) => declaration.depth(),
    }
}

#[cycle(statement_depth)]
fn block_items_depth(items: &[BlockItem]) -> u32
    ensures { result ≡ capped32 (pieces_depth (pieces_of (map piece_of items.now))) }
{
    let mut deepest = 0;
    for item in items {
        deepest = greater(deepest, item.depth());
    }
    deepest
}

impl BlockItem {
    /// The depth of an item of a block (6.8.2).
    #[cycle(statement_depth)]
    pub fn depth(&self) -> u32
        ensures { result ≡ capped32 (piece_depth (piece_of self.now)) }
    {
        match self {
            BlockItem::Declaration(declaration) => declaration.depth(),
            BlockItem::Statement(statement) => statement.depth(),
        }
    }
}

impl Stmt {
    /// The depth of a statement (6.8).
    #[cycle(statement_depth)]
    pub fn depth(&self) -> u32
        ensures { result ≡ capped32 (stmt_depth (stmt_of self.now)) }
    {
        match self {
            Stmt::Block(_, items) => deeper(block_items_depth(items)),
            Stmt::Empty(_) => 1,
            Stmt::Expression(_, expression) => deeper(expression.depth()),
            Stmt::If(_, test, branch) => deeper(greater(test.depth(), branch.depth())),
            Stmt::IfElse(_, test, yes, no) => deeper(greater(
                test.depth(),
                greater(yes.depth(), no.depth()),
            )),
            Stmt::Switch(_, value, body) => deeper(greater(value.depth(), body.depth())),
            Stmt::Case(_, value, body) => deeper(greater(value.depth(), body.depth())),
            Stmt::Default(_, body) => deeper(body.depth()),
            Stmt::While(_, test, body) => deeper(greater(test.depth(), body.depth())),
            Stmt::DoWhile(_, body, test) => deeper(greater(body.depth(), test.depth())),
            Stmt::For(_, head, body) => deeper(greater(
                start_depth(&head.start),
                below_head(&head.test, &head.step, body.depth()),
            )),
            Stmt::Break(_) => 1,
            Stmt::Continue(_) => 1,
            Stmt::Return(_, value) => deeper(option_expression_depth(value)),
        }
    }
}

fn below_head(test: &Option<Expr>, step: &Option<Expr>, body: u32) -> u32
    ensures { (x : ℕ) → body ≡ capped32 x → result ≡ capped32 (max (option_depth (option_tree test.now)) (max (option_depth (option_tree step.now)) x)) }
{
    greater(
        option_expression_depth(test),
        greater(option_expression_depth(step), body),
    )
}

// ---- units

impl Function {
    /// The depth of a function definition (6.9.1), with itself and its body.
    pub fn depth(&self) -> u32
        ensures { result ≡ capped32 (function_depth (function_of self.now)) }
    {
        let body = deeper(block_items_depth(&self.body));
        let below = greater(parameters_depth(&self.declarator.parameters), body);
        deeper(greater(specifiers_depth(&self.specifiers.list), below))
    }
}

impl External {
    /// The depth of an external declaration (6.9).
    pub fn depth(&self) -> u32
        ensures { result ≡ capped32 (external_depth (external_of self.now)) }
    {
        match self {
            External::Function(function) => function.depth(),
            External::Declaration(declaration) => declaration.depth(),
        }
    }
}

fn externals_depth(externals: &[External]) -> u32
    ensures { result ≡ capped32 (unit_depth (map external_of externals.now)) }
{
    let mut deepest = 0;
    for external in externals {
        deepest = greater(deepest, external.depth());
    }
    deepest
}

impl Unit {
    /// The depth of a translation unit (6.9).
    pub fn depth(&self) -> u32
        ensures { result ≡ capped32 (unit_depth (unit_of self.now)) }
    {
        externals_depth(&self.externals)
    }
}

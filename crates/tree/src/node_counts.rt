//! How many nodes a tree has: one each for a function definition, parameter, declarator, enumerator, assertion,
//! braced list of initialisers, statement and expression.
//!
//! A pair of parentheses is no node, nor is a function definition's own declarator. Each count traverses the
//! tree once, and its host recursion is no deeper than twice the tree. A count saturates at 2^64 - 1.
#![tactic(auto, using(crate::proofs::Sums::capped_none, crate::proofs::Sums::capped_one))]

ghost use Rattle.std.specs.Prelude.{◌≡◌, ◌+◌, ℕ, map};
ghost use Rattle.tree.specs.Capped.{capped};
ghost use Rattle.tree.specs.Counts.{nodes, all_nodes, type_nodes, option_nodes, sizes_nodes, init_nodes, inits_nodes, option_init_nodes, enumerators_nodes, specifier_nodes, specifiers_nodes, parameters_nodes, item_nodes, items_nodes, declaration_nodes, start_nodes, stmt_nodes, piece_nodes, pieces_nodes, function_nodes, external_nodes, unit_nodes};
ghost use Rattle.tree.specs.View.{tree_of, type_of, trees_of, option_tree, init_of, inits_of, option_init, enumerator_of, specifier_of, parameter_of, item_of, declaration_of, start_of, stmt_of, piece_of, pieces_of, function_of, external_of, unit_of};

use crate::declaration::{
    Declaration, Enumerator, FunctionDeclarator, Initialiser, Item, ObjectDeclarator, Parameter,
    Specifier,
};
use crate::expression::{Expr, TypeName};
use crate::statement::{BlockItem, ForStart, Stmt};
use crate::unit::{External, Function, Unit};

/// The sum, or 2^64 - 1 where it is greater.
fn sum(a: u64, b: u64) -> u64
    ensures { (x y : ℕ) → a ≡ capped x → b ≡ capped y → result ≡ capped (x + y) }
{
    a.saturating_add(b)
}

/// One more, or 2^64 - 1 where it is greater.
fn one_more(a: u64) -> u64
    ensures { (x : ℕ) → a ≡ capped x → result ≡ capped (x + 1) }
{
    a.saturating_add(1)
}

// ---- expressions

#[cycle(expression_nodes)]
fn expressions_nodes(expressions: &[Expr]) -> u64
    ensures { result ≡ capped (all_nodes (trees_of (map tree_of expressions.now))) }
{
    let mut total = 0;
    for expression in expressions {
        total = sum(total, expression.nodes());
    }
    total
}

impl TypeName {
    /// The nodes of the sizes in a type name (ISO/IEC 9899:2011 6.7.7), which is no node itself.
    #[cycle(expression_nodes)]
    pub fn nodes(&self) -> u64
        ensures { result ≡ capped (type_nodes (type_of self.now)) }
    {
        expressions_nodes(&self.sizes)
    }
}

impl Expr {
    /// The nodes of an expression (6.5).
    #[cycle(expression_nodes)]
    pub fn nodes(&self) -> u64
        ensures { result ≡ capped (nodes (tree_of self.now)) }
    {
        match self {
            Expr::Name(_, _) => 1,
            Expr::Constant(_, _, _) => 1,
            Expr::StringLiteral(_, _) => 1,
            Expr::Paren(inner) => inner.nodes(),
            Expr::Call(_, _, arguments) => one_more(expressions_nodes(arguments)),
            Expr::Subscript(_, array, index) => one_more(sum(array.nodes(), index.nodes())),
            Expr::After(_, _, operand) => one_more(operand.nodes()),
            Expr::Before(_, _, operand) => one_more(operand.nodes()),
            Expr::Prefix(_, _, operand) => one_more(operand.nodes()),
            Expr::SizeofExpr(_, operand) => one_more(operand.nodes()),
            Expr::SizeofType(_, name) => one_more(name.nodes()),
            Expr::Cast(_, name, operand) => one_more(sum(name.nodes(), operand.nodes())),
            Expr::Binary(_, _, left, right) => one_more(sum(left.nodes(), right.nodes())),
            Expr::Conditional(_, test, yes, no) => one_more(sum(
                sum(test.nodes(), yes.nodes()),
                no.nodes(),
            )),
            Expr::Assign(_, _, place, value) => one_more(sum(place.nodes(), value.nodes())),
        }
    }
}

fn option_expression_nodes(expression: &Option<Expr>) -> u64
    ensures { result ≡ capped (option_nodes (option_tree expression.now)) }
{
    match expression {
        Some(expression) => expression.nodes(),
        None => 0,
    }
}

fn sizes_nodes(sizes: &[Option<Expr>]) -> u64
    ensures { result ≡ capped (sizes_nodes (map option_tree sizes.now)) }
{
    let mut total = 0;
    for size in sizes {
        total = sum(total, option_expression_nodes(size));
    }
    total
}

// ---- declarations

#[cycle(initialiser_nodes)]
fn initialisers_nodes(initialisers: &[Initialiser]) -> u64
    ensures { result ≡ capped (inits_nodes (inits_of (map init_of initialisers.now))) }
{
    let mut total = 0;
    for initialiser in initialisers {
        total = sum(total, initialiser.nodes());
    }
    total
}

impl Initialiser {
    /// The nodes of an initialiser (6.7.9): a braced list is one itself.
    #[cycle(initialiser_nodes)]
    pub fn nodes(&self) -> u64
        ensures { result ≡ capped (init_nodes (init_of self.now)) }
    {
        match self {
            Initialiser::One(expression) => expression.nodes(),
            Initialiser::List(_, parts) => one_more(initialisers_nodes(parts)),
        }
    }
}

fn option_initialiser_nodes(initialiser: &Option<Initialiser>) -> u64
    ensures { result ≡ capped (option_init_nodes (option_init initialiser.now)) }
{
    match initialiser {
        Some(initialiser) => initialiser.nodes(),
        None => 0,
    }
}

fn enumerator_nodes(enumerator: &Enumerator) -> u64
    ensures { result ≡ capped (option_nodes (option_tree enumerator.now.value) + 1) }
{
    one_more(option_expression_nodes(&enumerator.value))
}

fn enumerators_nodes(enumerators: &[Enumerator]) -> u64
    ensures { result ≡ capped (enumerators_nodes (map enumerator_of enumerators.now)) }
{
    let mut total = 0;
    for enumerator in enumerators {
        total = sum(total, enumerator_nodes(enumerator));
    }
    total
}

fn specifier_nodes(specifier: &Specifier) -> u64
    ensures { result ≡ capped (specifier_nodes (specifier_of specifier.now)) }
{
    match specifier {
        Specifier::Extern => 0,
        Specifier::Static => 0,
        Specifier::Plain(_) => 0,
        Specifier::Enumerators(_, list) => enumerators_nodes(list),
    }
}

fn specifiers_nodes(specifiers: &[Specifier]) -> u64
    ensures { result ≡ capped (specifiers_nodes (map specifier_of specifiers.now)) }
{
    let mut total = 0;
    for specifier in specifiers {
        total = sum(total, specifier_nodes(specifier));
    }
    total
}

fn parameter_nodes(parameter: &Parameter) -> u64
    ensures { result ≡ capped (sizes_nodes (map option_tree parameter.now.sizes.items) + 1) }
{
    one_more(sizes_nodes(&parameter.sizes))
}

fn parameters_nodes(parameters: &[Parameter]) -> u64
    ensures { result ≡ capped (parameters_nodes (map parameter_of parameters.now)) }
{
    let mut total = 0;
    for parameter in parameters {
        total = sum(total, parameter_nodes(parameter));
    }
    total
}

fn item_nodes(item: &Item) -> u64
    ensures { result ≡ capped (item_nodes (item_of item.now)) }
{
    match item {
        Item::Object(object) => one_more(sum(
            sizes_nodes(&object.sizes),
            option_initialiser_nodes(&object.initialiser),
        )),
        Item::Function(function) => one_more(parameters_nodes(&function.parameters)),
    }
}

fn items_nodes(items: &[Item]) -> u64
    ensures { result ≡ capped (items_nodes (map item_of items.now)) }
{
    let mut total = 0;
    for item in items {
        total = sum(total, item_nodes(item));
    }
    total
}

impl Declaration {
    /// The nodes of a declaration (6.7), which is no node itself, or of a static assertion (6.7.10), which is one.
    pub fn nodes(&self) -> u64
        ensures { result ≡ capped (declaration_nodes (declaration_of self.now)) }
    {
        match self {
            Declaration::Declared(specifiers, items) => sum(
                specifiers_nodes(&specifiers.list),
                items_nodes(items),
            ),
            Declaration::Assertion(_, condition, _) => one_more(condition.nodes()),
        }
    }
}

// ---- statements

fn start_nodes(start: &ForStart) -> u64
    ensures { result ≡ capped (start_nodes (start_of start.now)) }
{
    match start {
        ForStart::Expression(expression) => option_expression_nodes(expression),
        ForStart::Declaration(declaration) => declaration.nodes(),
    }
}

#[cycle(statement_nodes)]
fn block_items_nodes(items: &[BlockItem]) -> u64
    ensures { result ≡ capped (pieces_nodes (pieces_of (map piece_of items.now))) }
{
    let mut total = 0;
    for item in items {
        total = sum(total, item.nodes());
    }
    total
}

impl BlockItem {
    /// The nodes of an item of a block (6.8.2).
    #[cycle(statement_nodes)]
    pub fn nodes(&self) -> u64
        ensures { result ≡ capped (piece_nodes (piece_of self.now)) }
    {
        match self {
            BlockItem::Declaration(declaration) => declaration.nodes(),
            BlockItem::Statement(statement) => statement.nodes(),
        }
    }
}

impl Stmt {
    /// The nodes of a statement (6.8).
    #[cycle(statement_nodes)]
    pub fn nodes(&self) -> u64
        ensures { result ≡ capped (stmt_nodes (stmt_of self.now)) }
    {
        match self {
            Stmt::Block(_, items) => one_more(block_items_nodes(items)),
            Stmt::Empty(_) => 1,
            Stmt::Expression(_, expression) => one_more(expression.nodes()),
            Stmt::If(_, test, branch) => one_more(sum(test.nodes(), branch.nodes())),
            Stmt::IfElse(_, test, yes, no) => one_more(sum(
                sum(test.nodes(), yes.nodes()),
                no.nodes(),
            )),
            Stmt::Switch(_, value, body) => one_more(sum(value.nodes(), body.nodes())),
            Stmt::Case(_, value, body) => one_more(sum(value.nodes(), body.nodes())),
            Stmt::Default(_, body) => one_more(body.nodes()),
            Stmt::While(_, test, body) => one_more(sum(test.nodes(), body.nodes())),
            Stmt::DoWhile(_, body, test) => one_more(sum(body.nodes(), test.nodes())),
            Stmt::For(_, head, body) => one_more(sum(
                head_nodes(&head.start, &head.test, &head.step),
                body.nodes(),
            )),
            Stmt::Break(_) => 1,
            Stmt::Continue(_) => 1,
            Stmt::Return(_, value) => one_more(option_expression_nodes(value)),
        }
    }
}

fn head_nodes(start: &ForStart, test: &Option<Expr>, step: &Option<Expr>) -> u64
    ensures { result ≡ capped (start_nodes (start_of start.now) + option_nodes (option_tree test.now) + option_nodes (option_tree step.now)) }
{
    sum(
        sum(start_nodes(start), option_expression_nodes(test)),
        option_expression_nodes(step),
    )
}

// ---- units

impl Function {
    /// The nodes of a function definition (6.9.1): itself, its body, and their parts.
    pub fn nodes(&self) -> u64
        ensures { result ≡ capped (function_nodes (function_of self.now)) }
    {
        let head = sum(
            specifiers_nodes(&self.specifiers.list),
            parameters_nodes(&self.declarator.parameters),
        );
        one_more(one_more(sum(head, block_items_nodes(&self.body))))
    }
}

impl External {
    /// The nodes of an external declaration (6.9).
    pub fn nodes(&self) -> u64
        ensures { result ≡ capped (external_nodes (external_of self.now)) }
    {
        match self {
            External::Function(function) => function.nodes(),
            External::Declaration(declaration) => declaration.nodes(),
        }
    }
}

fn externals_nodes(externals: &[External]) -> u64
    ensures { result ≡ capped (unit_nodes (map external_of externals.now)) }
{
    let mut total = 0;
    for external in externals {
        total = sum(total, external.nodes());
    }
    total
}

impl Unit {
    /// The nodes of a translation unit (6.9), which is no node itself.
    pub fn nodes(&self) -> u64
        ensures { result ≡ capped (unit_nodes (unit_of self.now)) }
    {
        externals_nodes(&self.externals)
    }
}

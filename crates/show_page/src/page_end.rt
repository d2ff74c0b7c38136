//! The end of a page.

/// The end of all pages.
pub(crate) const END: &[u8] = b"</script>
</body>
</html>
";
